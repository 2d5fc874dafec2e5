// Lists of fixed length, written part by part.

pub use bounded::put;
