// Text is appended to what stands in a lent buffer, as far as there is room.
#![tactic(auto)]

ghost use mathlib.Core.List.{[], ◌∷◌, flat_map};
ghost use Rattle.std.specs.Prelude.{◌≡◌, ◌≤◌, length, take, drop};
ghost use Rattle.numbers.specs.Bytes.{numbers};
ghost use Rattle.bench_text.specs.Decimals.{decimal, field, line};
ghost use Rattle.bench_text.specs.Texts.{Put};

// A lent buffer, of which the first `written` bytes stand.
#[derive(Drop)]
pub struct Text<'a> {
    pub room: &'a mut [u8],
    pub written: usize,
    pub ghost inside: { written ≤ length room.now },
}

// As it is: that the buffer is the same one is a clause of each method and function that takes a text, and no ghost field, since it is of the text before
// and after a call, not of one text.
impl Text<'_> {
    // One byte.
    #[tactic(auto, using(crate::proofs::Appending::appending))]
    fn put(&mut self, b: u8)
        ensures same { self.new.room.ghost_name ≡ self.old.room.ghost_name }
        ensures put { Put (b ∷ []) self.old.written self.old.room.now self.new.room.now self.new.written }
    {
        if self.written < self.room.len() {
            self.room[self.written] = b;
            self.written += 1;
        }
    }

    // The bytes of a word.
    #[tactic(auto, using(crate::proofs::Appending::wording))]
    fn put_bytes(&mut self, word: &[u8])
        ensures same { self.new.room.ghost_name ≡ self.old.room.ghost_name }
        ensures put { Put word.now self.old.written self.old.room.now self.new.room.now self.new.written }
    {
        let n = word.len().min(self.room.len() - self.written);
        self.room[self.written..self.written + n].copy_from_slice(&word[..n]);
        self.written += n;
    }

    // A number in decimal.
    // As it is: no `write!`, whose contract says which bytes stand only where all had room; here a number is cut where the room ends.
    #[tactic(auto, using(crate::proofs::Appending::digiting))]
    fn put_decimal(&mut self, x: u64)
        ensures same { self.new.room.ghost_name ≡ self.old.room.ghost_name }
        ensures put { Put (decimal x) self.old.written self.old.room.now self.new.room.now self.new.written }
    {
        if 10 <= x {
            self.put_decimal(x / 10);
        }
        self.put(b'0' + (x % 10) as u8);
    }

    // A blank, then a number.
    #[tactic(auto, using(crate::proofs::Appending::blanking))]
    fn put_field(&mut self, x: u64)
        ensures same { self.new.room.ghost_name ≡ self.old.room.ghost_name }
        ensures put { Put (field x) self.old.written self.old.room.now self.new.room.now self.new.written }
    {
        self.put(b' ');
        self.put_decimal(x);
    }

    // So many numbers of a list, from one place on.
    // As it is: a place and a count, and no slice: the list may end before them, so the caller of a slice would cut it first, as the loop does here.
    #[tactic(auto, using(crate::proofs::Appending::fielding))]
    fn put_fields(&mut self, list: &[u8], from: usize, count: usize)
        requires from_bound { from ≤ 16000000 }
        requires count_bound { count ≤ 1000000 }
        ensures same { self.new.room.ghost_name ≡ self.old.room.ghost_name }
        ensures put { Put (flat_map field (take count (drop from (numbers list.now)))) self.old.written self.old.room.now self.new.room.now self.new.written }
    {
        for i in from..(list.len() / numbers::WIDTH).min(from + count) {
            self.put_field(numbers::number(list, i));
        }
    }

    // Numbers, each after a blank.
    #[tactic(auto, using(crate::proofs::Appending::eaching))]
    fn put_each(&mut self, xs: &[u64])
        ensures same { self.new.room.ghost_name ≡ self.old.room.ghost_name }
        ensures put { Put (flat_map field xs.now) self.old.written self.old.room.now self.new.room.now self.new.written }
    {
        for x in xs {
            self.put_field(*x);
        }
    }

    // A line feed.
    fn end_line(&mut self)
        ensures same { self.new.room.ghost_name ≡ self.old.room.ghost_name }
        ensures put { Put (10 ∷ []) self.old.written self.old.room.now self.new.room.now self.new.written }
    {
        self.put(b'\n');
    }

    // A line of a word and numbers.
    #[tactic(auto, using(crate::proofs::Appending::lining))]
    pub fn put_line(&mut self, word: &[u8], xs: &[u64])
        ensures same { self.new.room.ghost_name ≡ self.old.room.ghost_name }
        ensures put { Put (line word.now xs.now) self.old.written self.old.room.now self.new.room.now self.new.written }
    {
        self.put_bytes(word);
        self.put_each(xs);
        self.end_line();
    }

    // A line of a word, a number and so many numbers of a list, from one place on.
    // As it is: a slice of the list would ask that it is long enough, and what is printed of a view asks nothing of its length.
    #[tactic(auto, using(crate::proofs::Appending::lining))]
    pub fn put_list_line(&mut self, word: &[u8], first: u64, list: &[u8], from: usize, count: usize)
        requires from_bound { from ≤ 16000000 }
        requires count_bound { count ≤ 1000000 }
        ensures same { self.new.room.ghost_name ≡ self.old.room.ghost_name }
        ensures put { Put (line word.now (first ∷ take count (drop from (numbers list.now)))) self.old.written self.old.room.now self.new.room.now self.new.written }
    {
        self.put_bytes(word);
        self.put_field(first);
        self.put_fields(list, from, count);
        self.end_line();
    }
}
