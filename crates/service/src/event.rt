// An event: one call that is made of an analyser in service.
#[derive(Clone, Copy)]
pub enum Event {
    // a board asks for a stay, with its start and stop counts: two plain numbers, named here, which a type of
    // their own would only wrap at each ask and unwrap at each put
    Ask { board: u8, start: u32, stop: u32 },
    // a board takes a step; a reading of a line in change gives the bit
    Step { board: u8, bit: bool },
    // a board's stay is ended
    Pull { board: u8 },
}
