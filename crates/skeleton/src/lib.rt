// The skeleton check of a master (document 01, Skeleton), and `load`. The definitions are those of `machine`.
#![tactic(auto)]

pub mod pages; // header, BEGIN, preamble, pages, END; load

// What stands where a page or END is due: a comment, a page's body, END at the end of the bytes.
#[derive(Clone, Copy)]
pub enum Turn {
    Aside { next: usize },
    Page { next: usize },
    Ended,
}
