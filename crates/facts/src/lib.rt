// Facts of the rules, each at a small number of boards: they hold, since this function is proved.
#![tactic(auto)]

ghost use Rattle.facts.specs.Facts.{Facts};

pub fn facts_hold()
    ensures { Facts }
{}

#[cfg(test)]
mod tests {
    use cell::CellLock;
    use lock::{Boards, Call, Lock, Station, replay};
    use one_bit::OneBit;

    // Where a board stands after calls on a new lock.
    fn stands<L: Lock + Drop>(boards: u8, calls: &[Call], board: u8) -> Option<Station> {
        let lock: L = replay(Boards::new(boards)?, calls);
        lock.station(board).ok()
    }

    // The number by which a call is refused after others, 0 where it is accepted, as a printed answer has it.
    fn refused<L: Lock + Drop>(boards: u8, calls: &[Call], call: Call) -> Option<u8> {
        let mut lock: L = replay(Boards::new(boards)?, calls);
        Some(lock.perform(call).err().map_or(0, u8::from))
    }

    // Both flags are high, and each board has read the other's; then 2 steps, and 1 steps.
    fn crossing(bit: bool) -> Option<Station> {
        let calls = [
            Call::Start(1),
            Call::Start(2),
            Call::Step(1, false),
            Call::Step(1, false),
            Call::Step(2, false),
            Call::Step(2, false),
            Call::Step(2, false),
            Call::Step(1, false),
            Call::Step(2, false),
            Call::Step(1, bit),
        ];
        stands::<OneBit>(2, &calls, 1)
    }

    #[test]
    fn one_bit_alone_and_crossing(rt: HostRuntime) {
        let steps = [Call::Start(1), Call::Step(1, true), Call::Step(1, true)];
        assert_eq!(rt; stands::<OneBit>(1, &steps, 1), Some(Station::Inside));
        assert_eq!(rt; crossing(false), Some(Station::Inside));
        assert_eq!(rt; crossing(true), Some(Station::Trying));
    }

    #[test]
    fn cell_stays_with_its_board(rt: HostRuntime) {
        let pulled = [
            Call::Start(1),
            Call::Start(2),
            Call::Step(1, false),
            Call::Pull(2),
            Call::Step(2, false),
            Call::Start(2),
            Call::Step(2, false),
        ];
        assert_eq!(rt; stands::<CellLock>(2, &pulled, 1), Some(Station::Inside));
        assert_eq!(rt; stands::<CellLock>(2, &pulled, 2), Some(Station::Trying));
    }

    #[test]
    fn refusals_by_number(rt: HostRuntime) {
        let inside = [
            Call::Start(1),
            Call::Step(1, false),
            Call::Step(1, false),
            Call::Step(1, false),
        ];
        let table = [
            (Call::Start(0), 1),
            (Call::Step(3, true), 1),
            (Call::Start(1), 2),
            (Call::Start(2), 0),
            (Call::Pull(2), 4),
            (Call::Leave(2), 5),
            (Call::Pull(1), 0),
            (Call::Leave(1), 0),
            (Call::Step(2, true), 0),
        ];
        for (call, number) in table {
            assert_eq!(rt;
                refused::<OneBit>(2, &inside, call),
                Some(number),
                "one-bit"
            );
            assert_eq!(rt; refused::<CellLock>(2, &inside, call), Some(number), "cell");
        }
    }
}
