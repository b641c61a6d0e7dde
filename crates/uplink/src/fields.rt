// The fields of an answer as numbers, in document 01's order: the entries for C write them, and the command program prints them.
ghost use Rattle.std.specs.Prelude.{◌≡◌, ℕ, ◌/◌, ◌%◌, ◌^◌, cond, List, [], ◌∷◌, map};
ghost use Rattle.std.specs.Int.{w64, cast_unsigned};
ghost use Rattle.std.specs.Option.{option_map_or};
ghost use Rattle.rules.specs.Listed.{entry_fields};
ghost use Rattle.uplink.specs.Told.{entry_told};

use super::{Asked, Listed, Opened, Sent, Taken};

// An answer of N fields.
pub trait Fields<const N: usize> {
    ghost numbers: { Self → List ℕ };

    fn fields(self) -> [u32; N]
        ensures { result ≡ numbers self };
}

// Of a call that only says that it was done.
impl Fields<0> for () {
    ghost numbers = { λ a. [] };

    fn fields(self) -> [u32; 0] {
        []
    }
}

impl Fields<1> for u32 {
    ghost numbers = { λ a. a ∷ [] };

    fn fields(self) -> [u32; 1] {
        [self]
    }
}

// "1 .. else 0".
impl Fields<1> for bool {
    ghost numbers = { λ a. cond a 1 0 ∷ [] };

    fn fields(self) -> [u32; 1] {
        [u32::from(self)]
    }
}

// A signed number: its 64 bits in two's complement, the lower half first.
impl Fields<2> for i64 {
    ghost numbers = { λ a. cast_unsigned w64 a % 2 ^ 32 ∷ cast_unsigned w64 a / 2 ^ 32 ∷ [] };

    fn fields(self) -> [u32; 2] {
        let bits = self.cast_unsigned();
        [(bits % 0x1_0000_0000) as u32, (bits >> 32) as u32]
    }
}

// Of a test: 1 and 0 if nothing is wrong, else 0 and the first wrong place.
impl Fields<2> for Option<u32> {
    ghost numbers = { λ a. option_map_or (λ place. 0 ∷ place ∷ []) a (1 ∷ 0 ∷ []) };

    fn fields(self) -> [u32; 2] {
        match self {
            None => [1, 0],
            Some(place) => [0, place],
        }
    }
}

impl<const N: usize> Fields<N> for [u32; N] {
    ghost numbers = { λ a. a };

    fn fields(self) -> [u32; N] {
        self
    }
}

impl Fields<2> for Opened {
    ghost numbers = { λ a. a.slot ∷ a.ticket ∷ [] };

    fn fields(self) -> [u32; 2] {
        [self.slot, self.ticket]
    }
}

impl Fields<2> for Taken {
    ghost numbers = { λ a. a.serial ∷ a.waiting ∷ [] };

    fn fields(self) -> [u32; 2] {
        [u32::from(self.serial), self.waiting]
    }
}

impl Fields<7> for Sent {
    ghost numbers = { λ a. a.slot ∷ a.ticket ∷ a.length ∷ a.reference ∷ a.serial ∷ a.started ∷ a.terms ∷ [] };

    fn fields(self) -> [u32; 7] {
        [
            self.slot,
            self.ticket,
            self.length,
            self.reference,
            u32::from(self.serial),
            self.started,
            self.terms,
        ]
    }
}

impl Fields<5> for Asked {
    ghost numbers = { λ a. a.kind ∷ a.weight ∷ a.deficit ∷ a.waiting ∷ a.bytes ∷ [] };

    fn fields(self) -> [u32; 5] {
        [
            self.kind,
            self.weight,
            self.deficit,
            self.waiting,
            self.bytes,
        ]
    }
}

impl Fields<11> for Listed {
    ghost numbers = { λ a. a.count ∷ entry_fields (map entry_told a.places) };

    fn fields(self) -> [u32; 11] {
        let [a, b, c, d, e] = self.places;
        [
            self.count, a.slot, a.bytes, b.slot, b.bytes, c.slot, c.bytes, d.slot, d.bytes, e.slot,
            e.bytes,
        ]
    }
}
