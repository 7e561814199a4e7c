// What is noted of an exchange.

// The limit that entered and the limit that left, both from 1.
#[derive(Clone, Copy)]
pub struct Exchange {
    pub entering: usize,
    pub leaving: usize,
}
