// The reply to a sheet, and its text.
#![tactic(auto)]

// What a sheet is answered. `means` is how many mean places hold a Z mean: as many as qubits for `all`, else 0.
// `status`, `line` and `means` stay numbers: they are the document's, and those that are printed.
#[derive(Clone, Copy)]
pub struct Reply {
    pub status: u8,
    pub line: usize,
    pub mean: f64,
    pub shown: i64,
    pub t_count: usize,
    pub peak_terms: usize,
    pub touched: usize,
    pub discarded: f64,
    pub means: usize,
}

// A lent buffer, and the place in it where the next piece of a text goes.
#[derive(Drop)]
pub struct Page<'a> {
    pub out: &'a mut [u8],
    pub at: usize,
}

pub mod write; // write.rt: pieces of a text on a page
pub mod printed; // printed.rt: the text of a reply
