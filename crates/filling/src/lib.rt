// Filling lists: records put one after the other into a slice that the caller lends.
#![tactic(auto)]

ghost use Rattle.std.specs.Prelude.{◌≡◌, ℕ, ◌<◌, ◌≤◌, true, false, is_ok, slice_index_or};
ghost use Rattle.filling.specs.Lists.{count_after, element, free_places, push_answered, slice_after};

mod refusal;
mod stamped;

pub use refusal::Refusal;
pub use stamped::Stamped;

// The first `len` places hold the records, in the order in which they came. The places beyond are the caller's, and stay as
// they are until a record comes to them: so a length beside the lent slice, and no vector, which would need a heap. The
// definitions take slice and length apart, so that they also say what the lender's slice holds afterwards.
#[derive(Drop)]
pub struct Filling<'a, T> {
    places: &'a mut [T],
    len: usize,
}

impl<'a, T: Copy> Filling<'a, T> {
    // An empty list over the slice.
    pub fn new(places: &'a mut [T]) -> Filling<'a, T>
        ensures len { result.len ≡ 0 }
        ensures places { result.places.now ≡ places.old }
        ensures lender { result.places.ghost_name ≡ places.entry.ghost_name }
    {
        Filling { places, len: 0 }
    }

    // How many records the list holds.
    pub fn len(&self) -> usize
        ensures { result ≡ self.now.len }
    {
        self.len
    }

    // How many more records it can take.
    pub fn free(&self) -> usize
        ensures { result ≡ free_places self.now.places.now self.now.len }
    {
        self.places.len().saturating_sub(self.len)
    }

    // The record at an index from 0, where the list holds one.
    pub fn get(&self, index: usize) -> Option<T>
        ensures { result ≡ element self.now.places.now self.now.len index }
    {
        if index < self.len {
            self.places.get(index).copied()
        } else {
            None
        }
    }

    // Puts a record into the first free place.
    pub fn push(&mut self, value: T) -> Result<(), Refusal>
        ensures answers { result ≡ push_answered self.old.places.now self.old.len }
        ensures places { self.new.places.now ≡ slice_after self.old.places.now self.old.len value }
        ensures len { self.new.len ≡ count_after self.old.places.now self.old.len }
        ensures lender { self.new.places.ghost_name ≡ self.old.places.ghost_name }
        ensures before { (k : ℕ) (d : T) → k < self.old.len → slice_index_or self.new.places.now k d ≡ slice_index_or self.old.places.now k d }
        ensures last { (d : T) → is_ok result ≡ true → slice_index_or self.new.places.now self.old.len d ≡ value }
        ensures beyond { (k : ℕ) (d : T) → self.new.len ≤ k → slice_index_or self.new.places.now k d ≡ slice_index_or self.old.places.now k d }
        ensures kept { is_ok result ≡ false → self.new ≡ self.old }
    {
        if self.free() == 0 {
            return Err(Refusal::NoFreePlace);
        }
        self.places[self.len] = value;
        self.len += 1;
        Ok(())
    }
}

#[cfg(test)]
mod tests {
    use super::*;
    use std::test::Fail;

    #[derive(Clone, Copy)]
    struct Reply {
        board: u8,
        number: u8,
    }

    // A caller that lends a slice knows all of it afterwards.
    fn fill_two<T: Copy>(places: &mut [T], first: T, second: T) -> Result<(), Refusal>
        ensures answers { result ≡ push_answered (slice_after places.old 0 first) (count_after places.old 0) }
        ensures places { places.new ≡ slice_after (slice_after places.old 0 first) (count_after places.old 0) second }
    {
        let mut list = Filling::new(places);
        list.push(first)?;
        list.push(second)
    }

    #[test]
    fn fills_replies_and_keeps_what_is_beyond(rt: HostRuntime) -> Result<(), Fail> {
        let blank = Stamped::new(
            9,
            Reply {
                board: 9,
                number: 9,
            },
        );
        let mut replies = [blank; 3];
        fill_two(
            &mut replies,
            Stamped::new(
                0,
                Reply {
                    board: 1,
                    number: 0,
                },
            ),
            Stamped::new(
                1,
                Reply {
                    board: 2,
                    number: 5,
                },
            ),
        )?;
        assert_eq!(rt;
            (
                replies[0].place,
                replies[0].value.board,
                replies[0].value.number,
            ),
            (0, 1, 0)
        );
        assert_eq!(rt;
            (
                replies[1].place,
                replies[1].value.board,
                replies[1].value.number,
            ),
            (1, 2, 5)
        );
        assert_eq!(rt;
            (
                replies[2].place,
                replies[2].value.board,
                replies[2].value.number,
            ),
            (9, 9, 9)
        );
        Ok(())
    }

    #[test]
    fn refuses_a_number_without_a_free_place(rt: HostRuntime) -> Result<(), Fail> {
        let mut numbers = [Stamped::new(9, 0i64); 1];
        let mut list = Filling::new(&mut numbers);
        list.push(Stamped::new(0, -250))?;
        assert_eq!(rt; list.push(Stamped::new(1, 120)), Err(Refusal::NoFreePlace));
        assert_eq!(rt; (list.len(), list.free()), (1, 0));
        assert!(rt; list.get(1).is_none());
        assert_eq!(rt; (numbers[0].place, numbers[0].value), (0, -250));
        Ok(())
    }
}
