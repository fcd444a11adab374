// Places of up to sixteen keys in an image of at most 65,535 bytes, a number each, 0 where there is none.
#![tactic(auto)]

ghost use Rattle.std.specs.Prelude.{◌≡◌, [], get_or};
ghost use Rattle.places.specs.Places.{kept_place, list_of, places_of, pushed, same_places};

#[derive(Clone, Copy, PartialEq, Eq)]
pub struct Places {
    pub all: [u16; 16],
}

// A place that such an image can have; no other is kept.
fn kept(place: usize) -> u16
    ensures { result ≡ kept_place place }
{
    if place < 65536 { place as u16 } else { 0 }
}

impl Places {
    pub fn none() -> Places
        ensures { result ≡ places_of [] }
    {
        Places { all: [0; 16] }
    }

    // One more before all of them, of which the sixteenth is lost. Each is named, and no slice copied: of a file of one key they are none,
    // and the compiler then knows it.
    #[inline(always)]
    pub fn push(self, first: usize) -> Places
        ensures { result ≡ pushed first self }
    {
        let [a, b, c, d, e, f, g, h, i, j, k, l, m, n, o, _] = self.all;
        let first = kept(first);
        let all = [first, a, b, c, d, e, f, g, h, i, j, k, l, m, n, o];
        Places { all }
    }

    // The place at an index from 0, and 0 past the sixteenth.
    #[tactic(auto, using(crate::specs::Places::list_all))]
    pub fn get(self, index: usize) -> u16
        ensures { result ≡ get_or (list_of self) index 0 }
    {
        self.all.get(index).copied().unwrap_or(0)
    }

    // One `==`, about which `same_determined` is.
    pub fn same(self, other: Places) -> bool
        ensures { result ≡ same_places self other }
    {
        self == other
    }
}
