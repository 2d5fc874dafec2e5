// Lists of calls on a new book.
ghost use Rattle.std.specs.Prelude.{◌≡◌, min, [], ◌∷◌, ◌++◌, length, drop};
ghost use Rattle.line_book.specs.Came.{Came, Lent, Over, room};
ghost use Rattle.line_book.specs.Histories.{History, step, standing, Lawful, AllLawful};
ghost use Rattle.line_book.specs.Log.{act, told};
ghost use Rattle.line_book.specs.Reading.{Counted, Likened, Right};
ghost use Rattle.line_book.specs.Rooms.{Fewest};
ghost use Rattle.line_book.specs.Seen.{seen};
ghost use Rattle.line_book.specs.Standing.{nothing};

use super::fault::{BookFault, CountFault};
use super::{Answer, Book, Call};
use diagram::{MemoItem, Node};
use weights::Weight;

impl<'a> Book<'a> {
    // Makes one call of a list.
    pub fn make(&mut self, call: Call) -> Result<Answer, BookFault>
        ensures lawful { (h : History) → Came h (seen self.old) → Lawful (room (seen self.old)) (standing nothing h) (step (act call.entry) result) }
        ensures came { (h : History) → Came h (seen self.old) → Came (h ++ (step (act call.entry) result ∷ [])) (seen self.new) }
        ensures lent { Lent self.old.table self.new.table }
    {
        match call {
            Call::Take(program) => Ok(Answer::Taken(self.take(program)?)),
            Call::Question(entry, pattern) => Ok(Answer::Asked(self.question(entry, pattern)?)),
            Call::Clear => {
                self.clear();
                Ok(Answer::Cleared)
            }
        }
    }
}

// Makes the calls in their order on a new book, each with its answer at its place; where there are fewer places, as many as there are.
// Calls and answers are two lists, since the caller only lends the calls.
pub fn replay<'a>(
    nodes: &'a mut [Node],
    memo: &'a mut [MemoItem],
    calls: &[Call],
    answers: &mut [Result<Answer, BookFault>],
) -> Book<'a>
    ensures came { Came (told calls.now answers.new) (seen result) }
    ensures lawful { AllLawful (min (length nodes.old) 16384) nothing (told calls.now answers.new) }
    ensures others { drop (length calls.now) answers.new ≡ drop (length calls.now) answers.old }
    ensures over { Over nodes.entry memo.entry result.table }
{
    let mut book = Book::new(nodes, memo);
    // No zip of both lists: after it a proof knows nothing of what was written through the answers.
    for (i, answer) in answers.iter_mut().enumerate() {
        let Some(call) = calls.get(i) else {
            break;
        };
        *answer = book.make(*call);
    }
    book
}

// What is asked of a book when its calls are over: to count a question by the two lists of weights of the rows, and to compare it with another.
#[derive(Drop)]
pub struct Inquiry<'y, 'n, W> {
    pub question: usize,
    pub other: usize,
    pub yes: &'y [W],
    pub no: &'n [W],
}

// What was found: how many nodes the book keeps, whether the count was accepted, with its sum, and whether the two questions are alike.
// The sum stands beside `counted` and not in it, as a refused count leaves the sum that was there before.
#[derive(Drop)]
pub struct Findings<W> {
    pub used: usize,
    pub counted: Result<(), CountFault>,
    pub sum: W,
    pub alike: Result<bool, CountFault>,
}

// Makes the calls in their order on a new book, and then counts and compares. Where the count is refused, the sum stays as it was.
pub fn replay_and_ask<'a, W: Weight>(
    nodes: &'a mut [Node],
    memo: &'a mut [MemoItem],
    calls: &[Call],
    answers: &mut [Result<Answer, BookFault>],
    inquiry: &Inquiry<W>,
    cells: &mut [W],
    findings: &mut Findings<W>,
) -> Book<'a>
    ensures lawful { AllLawful (min (length nodes.old) 16384) nothing (told calls.now answers.new) }
    ensures odds { Counted W.meaning W.nought W.unit W.plus W.times (standing nothing (told calls.now answers.new)) findings.new.used inquiry.now.question inquiry.now.yes.now inquiry.now.no.now cells.old cells.new findings.old.sum findings.new.sum findings.new.counted }
    ensures alike { Likened (standing nothing (told calls.now answers.new)) inquiry.now.question inquiry.now.other findings.new.alike }
    ensures mark { Fewest (standing nothing (told calls.now answers.new)).formulas findings.new.used }
    ensures right { Right (standing nothing (told calls.now answers.new)) (seen result) }
    ensures came { Came (told calls.now answers.new) (seen result) }
    ensures others { drop (length calls.now) answers.new ≡ drop (length calls.now) answers.old }
    ensures over { Over nodes.entry memo.entry result.table }
{
    let book = replay(nodes, memo, calls, answers);
    findings.used = book.used();
    findings.alike = book.alike(inquiry.question, inquiry.other);
    findings.counted = book.count(
        inquiry.question,
        inquiry.yes,
        inquiry.no,
        cells,
        &mut findings.sum,
    );
    book
}
