// What an analyser keeps of one board: its station, the counts that it asked with, and how far it has come inside.
ghost use Rattle.std.specs.Prelude.{◌≡◌};
ghost use Rattle.service.specs.Records.{arrived, blank, given, gone, staged, waits};

use crate::standing::Standing;

// What a board that is inside has done last.
#[derive(Clone, Copy)]
pub enum Stage {
    Arrived,
    StartPut,
    StopPut,
    // the start that it took
    StartTaken(u32),
    // the start and the stop that it took
    StopTaken(u32, u32),
}

// The stage matters only while the board is inside.
#[derive(Clone, Copy)]
pub struct Record {
    pub standing: Standing,
    pub start: u32,
    pub stop: u32,
    pub stage: Stage,
}

impl Record {
    // A board that is out and has never asked.
    pub fn new() -> Record
        ensures { result ≡ blank }
    {
        Record {
            standing: Standing::Out,
            start: 0,
            stop: 0,
            stage: Stage::Arrived,
        }
    }

    // The board has asked, and is in its doorway.
    pub fn ask(&mut self, start: u32, stop: u32)
        ensures { self.new ≡ given self.old start stop }
    {
        self.standing = Standing::Doorway;
        self.start = start;
        self.stop = stop;
    }

    // The board has gone to another station.
    pub fn go(&mut self, standing: Standing)
        ensures { self.new ≡ gone self.old standing }
    {
        self.standing = standing;
    }

    // The board has gone inside, and has done nothing there.
    pub fn enter(&mut self)
        ensures { self.new ≡ arrived self.old }
    {
        self.standing = Standing::Inside;
        self.stage = Stage::Arrived;
    }

    // The board has come one stage further inside.
    pub fn advance(&mut self, stage: Stage)
        ensures { self.new ≡ staged self.old stage }
    {
        self.stage = stage;
    }

    // Whether the board is past its doorway and not yet inside.
    pub fn waits(&self) -> bool
        ensures { result ≡ waits self.now }
    {
        self.standing == Standing::Waiting
    }
}
