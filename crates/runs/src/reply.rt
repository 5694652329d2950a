// What came of one event.
use panel::Reading;
use service::Answer;

// Its answer, and the reading that it put on the panel, if any.
#[derive(Clone, Copy)]
pub struct Reply {
    pub answer: Answer,
    pub shown: Option<Reading>,
}
