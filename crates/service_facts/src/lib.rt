// Facts of an analyser in service, each at a small number of boards: they hold, since this function is proved.
#![tactic(auto)]

ghost use Rattle.service_facts.specs.ServiceFacts.{ServiceFacts};

pub fn service_facts_hold()
    ensures { ServiceFacts }
{}

#[cfg(test)]
mod tests {
    use analyser::Analyser;
    use interpolator::Gap;
    use lock::{FittingList, Lock};
    use one_bit::OneBit;
    use queue::Queue;
    use service::Refusal;

    // The number by which an ask or a pull is refused, 0 where it is accepted, as a printed answer has it.
    fn number<T: Copy>(answer: Result<T, Refusal>) -> u8 {
        answer.err().map_or(0, u8::from)
    }

    // Of two boards, 1 has asked and 2 is out. Board, station and counts are judged in this order.
    #[test]
    fn asks_by_number(rt: HostRuntime) {
        let mut list = FittingList::begin();
        assert_eq!(rt; list.fit(), Ok(()));
        let mut analyser = Analyser::<Queue<OneBit>, Gap>::put_into_service(list);
        assert_eq!(rt; number(analyser.ask(1, 350, 100)), 0);
        for (board, refused) in [(0, 1), (1, 2), (2, 3), (3, 1)] {
            assert_eq!(rt;
                number(analyser.ask(board, 16_777_216, 100)),
                refused,
                "start"
            );
            assert_eq!(rt;
                number(analyser.ask(board, 350, 16_777_216)),
                refused,
                "stop"
            );
        }
        assert_eq!(rt; number(analyser.pull(2)), 4);
        assert_eq!(rt; number(analyser.ask(2, 16_777_215, 16_777_215)), 0);
    }
}
