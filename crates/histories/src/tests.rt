// Histories of a book: what its calls answer, and what they leave.
use diagram::{MemoItem, Node};
use line_book::fault::{BookFault, CountFault};
use line_book::{Book, Taken};
use std::process::Abort;
use std::test::Fail;
use weights::{Capped, LeastCost, Pair};

const TWO: [u8; 19] = [0, 7, 5, 0, 7, 5, 1, 7, 6, 0, 1, 0xff, 1, 1, 7, 8, 2, 1, 0];

const FIVE: [u8; 17] = [0, 7, 5, 0, 7, 6, 0, 5, 1, 5, 2, 6, 1, 5, 3, 5, 4];

// A flip, asked whether it is false, and its negation, asked whether it is true.
const FLIP: [u8; 3] = [0, 5, 0];

const NEGATED: [u8; 10] = [0, 7, 5, 0, 6, 0, 1, 0xfe, 1, 0xff];

fn capped(count: u64) -> Capped {
    Capped { count }
}

// Takes the program of two flips, and asks whether it is false: want of nodes comes where the list is too short.
fn room(rt: &impl Abort, nodes: &mut [Node], taken: bool, asked: bool) {
    let mut memo = [MemoItem::BLANK; 16];
    let mut book = Book::new(nodes, &mut memo);
    let answer = book.take(&TWO);
    if !taken {
        assert!(rt; answer == Err(BookFault::Nodes));
        assert!(rt; book.used() == 0);
        return;
    }
    let figures = Taken {
        entry: 0,
        leaves: 1,
        flips: 2,
    };
    assert!(rt; answer == Ok(figures));
    assert!(rt; book.used() == 3);
    let question = book.question(0, &[0]);
    if asked {
        assert!(rt; question == Ok(0));
    } else {
        assert!(rt; question == Err(BookFault::Nodes));
        assert!(rt; book.used() == 3);
    }
}

#[test]
fn exact_fit_and_one_short(rt: HostRuntime) {
    room(&rt, &mut [], false, false);
    room(&rt, &mut [Node::BLANK; 1], false, false);
    room(&rt, &mut [Node::BLANK; 2], false, false);
    room(&rt, &mut [Node::BLANK; 3], true, false);
    room(&rt, &mut [Node::BLANK; 4], true, true);
}

// The same answers and as many nodes, whatever the memo's length.
fn five_flips(rt: &impl Abort, memo: &mut [MemoItem]) -> Result<(), Fail> {
    let mut nodes = [Node::BLANK; 64];
    let mut book = Book::new(&mut nodes, memo);
    book.take(&FIVE)?;
    assert!(rt; book.used() == 9);
    assert!(rt; book.question(0, &[2]) == Ok(0));
    assert!(rt; book.question(0, &[1]) == Ok(1));
    let yes = [capped(1), capped(2), capped(3), capped(4), capped(5)];
    let no = [capped(9), capped(8), capped(7), capped(6), capped(5)];
    let mut sum = capped(0);
    assert!(rt;
        book.count(0, &yes, &no, &mut [capped(0); 64], &mut sum)
            .is_ok()
    );
    assert_eq!(rt; sum.count, 100000);
    assert!(rt;
        book.count(1, &yes, &no, &mut [capped(0); 64], &mut sum)
            .is_ok()
    );
    assert_eq!(rt; sum.count, 47100);
    Ok(())
}

#[test]
fn any_memo(rt: HostRuntime) -> Result<(), Fail> {
    five_flips(&rt, &mut [])?;
    five_flips(&rt, &mut [MemoItem::BLANK; 1])?;
    five_flips(&rt, &mut [MemoItem::BLANK; 512])
}

#[test]
fn alike_by_function(rt: HostRuntime) -> Result<(), Fail> {
    let mut nodes = [Node::BLANK; 16];
    let mut memo = [MemoItem::BLANK; 16];
    let mut book = Book::new(&mut nodes, &mut memo);
    book.take(&FLIP)?;
    book.take(&NEGATED)?;
    book.question(0, &[0])?;
    book.question(1, &[1])?;
    book.question(1, &[0])?;
    assert!(rt; book.alike(0, 1) == Ok(true));
    assert!(rt; book.alike(0, 2) == Ok(false));
    assert!(rt; book.alike(0, 3) == Err(CountFault::NoQuestion));
    Ok(())
}

// In capped counts and least costs at once, and each refusal of a count, which leaves the sum.
#[test]
fn counts_and_their_refusals(rt: HostRuntime) -> Result<(), Fail> {
    let mut nodes = [Node::BLANK; 16];
    let mut memo = [MemoItem::BLANK; 16];
    let mut book = Book::new(&mut nodes, &mut memo);
    book.take(&TWO)?;
    book.question(0, &[2])?;
    book.question(0, &[1])?;
    let pair = |count: u64, cost: u32| -> Pair<Capped, LeastCost> {
        Pair {
            first: Capped { count },
            second: LeastCost { cost },
        }
    };
    let yes = [pair(6, 1), pair(3, 1)];
    let no = [pair(4, 0), pair(7, 0)];
    let mut cells = [pair(0, 0); 16];
    let mut sum = pair(5, 5);
    assert!(rt; book.count(2, &yes, &no, &mut cells, &mut sum) == Err(CountFault::NoQuestion));
    assert!(rt; book.count(0, &yes, &no[..1], &mut cells, &mut sum) == Err(CountFault::Weights));
    assert!(rt;
        book.count(0, &yes[..1], &no[..1], &mut cells, &mut sum) == Err(CountFault::Weights)
    );
    assert!(rt; book.count(0, &yes, &no, &mut cells[..2], &mut sum) == Err(CountFault::Cells));
    assert!(rt; sum == pair(5, 5));
    assert!(rt; book.count(0, &yes, &no, &mut cells, &mut sum) == Ok(()));
    assert!(rt; sum == pair(72, 1));
    assert!(rt; book.count(1, &yes, &no, &mut cells, &mut sum) == Ok(()));
    assert!(rt; sum == pair(60, 1));
    Ok(())
}

// Eight entries and one more, 64 questions and one more, refused calls in between, and all again after a clear.
#[test]
fn full_books(rt: HostRuntime) -> Result<(), Fail> {
    let mut nodes = [Node::BLANK; 64];
    let mut memo = [MemoItem::BLANK; 64];
    let mut book = Book::new(&mut nodes, &mut memo);
    for _round in 0..2 {
        for entry in 0..8 {
            assert!(rt; book.question(entry, &[2]) == Err(BookFault::NoEntry));
            assert!(rt; book.take(&[0, 1]).is_err());
            assert!(rt; book.take(&FLIP)?.entry == entry);
        }
        assert!(rt; book.take(&FLIP) == Err(BookFault::Entries));
        for number in 0..64 {
            assert!(rt; book.question(0, &[3]) == Err(BookFault::Pattern));
            assert!(rt; book.question(0, &[]) == Err(BookFault::Pattern));
            assert!(rt; book.question(number % 8, &[1]) == Ok(number));
        }
        assert!(rt; book.question(0, &[1]) == Err(BookFault::Questions));
        assert!(rt; book.used() == 1);
        book.clear();
        assert!(rt; book.used() == 0);
        assert!(rt; book.alike(0, 0) == Err(CountFault::NoQuestion));
    }
    Ok(())
}

// Of longer lists what lies beyond item 16,384 stays.
#[test]
fn beyond_the_last(rt: HostRuntime) -> Result<(), Fail> {
    let marked = Node {
        flip: 9,
        low: 1,
        high: 0,
    };
    let mut nodes = [marked; 16386];
    let mut memo = [MemoItem::BLANK; 4];
    let mut book = Book::new(&mut nodes, &mut memo);
    book.take(&TWO)?;
    assert!(rt; book.used() == 3);
    book.clear();
    assert!(rt; nodes[16383] == Node::BLANK);
    assert!(rt; nodes[16384] == marked);
    assert!(rt; nodes[16385] == marked);
    Ok(())
}
