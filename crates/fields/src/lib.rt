// The fields that a container is made of, read at a place in a lent image.
//
// The place is a value: each step takes it and answers the place moved on, or the refusal with the
// byte of the image at which the failing field began.
#![tactic(auto)]

ghost use Rattle.std.specs.Prelude.{◌≡◌, ◌-◌, get_or};
ghost use Rattle.fields.specs.Bytes.{same_bytes};
ghost use Rattle.fields.specs.Fields.{has_room, uint32_at, bytes_at, string_at, fixed_at, end_at, IsView, fault};
ghost use Rattle.fields.specs.Refusals.{number_of, count_of};

// Why an image, a comment or a buffer is refused.
#[derive(Clone, Copy, Debug, PartialEq, Eq)]
pub enum Refusal {
    Length,
    FormatEncoding,
    Crypto,
    AlgorithmUnknown,
    PublicKey,
    TrailingData(usize),
    CharacterEncoding,
    Encrypted,
    Room,
    Form,
    Size,
}

impl Refusal {
    // The rules' number, which the C interface answers.
    pub fn number(self) -> u8
        ensures { result ≡ number_of self }
    {
        match self {
            Refusal::Length => 1,
            Refusal::FormatEncoding => 2,
            Refusal::Crypto => 3,
            Refusal::AlgorithmUnknown => 4,
            Refusal::PublicKey => 5,
            Refusal::TrailingData(_) => 6,
            Refusal::CharacterEncoding => 7,
            Refusal::Encrypted => 8,
            Refusal::Room => 9,
            Refusal::Form => 10,
            Refusal::Size => 11,
        }
    }

    // The refusal of a field that began at this byte.
    pub fn at(self, at: usize) -> Fault
        ensures { result ≡ fault self at }
    {
        Fault { why: self, at }
    }

    // How many bytes were left over; 0 for every other refusal.
    pub fn count(self) -> usize
        ensures { result ≡ count_of self }
    {
        match self {
            Refusal::TrailingData(left) => left,
            _ => 0,
        }
    }
}

// A refusal, and the byte of the image at which the field that it belongs to began.
#[derive(Clone, Copy, Debug, PartialEq, Eq)]
pub struct Fault {
    pub why: Refusal,
    pub at: usize,
}

// A part of the image, without its length bytes. A field that is absent has start and length 0.
#[derive(Clone, Copy, Debug, PartialEq, Eq)]
pub struct Part {
    pub start: usize,
    pub length: usize,
}

impl Part {
    pub const ABSENT: Part = Part {
        start: 0,
        length: 0,
    };
}

// A place in the image, and the end of the part that encloses it. The image is lent beside it: with a reference in here each answer
// would hold one too, and its equation would speak of memory.
#[derive(Clone, Copy, Debug, PartialEq, Eq)]
pub struct Cursor {
    pub at: usize,
    pub end: usize,
}

// What was read, and the place after it; or why it is refused.
pub type Read<T> = Result<(T, Cursor), Fault>;

impl Cursor {
    // Do k more bytes remain in the enclosing part, and is that part within the image?
    #[tactic(auto, unfolding(crate::specs::Fields::has_room))]
    pub fn has(self, image: &[u8], k: usize) -> bool
        ensures { result ≡ has_room image.now self k }
    {
        self.end <= image.len() && self.at <= self.end && k <= self.end - self.at
    }

    // How many bytes remain before the end of the enclosing part.
    pub fn remaining(self) -> usize
        ensures { result ≡ self.end - self.at }
    {
        self.end.saturating_sub(self.at)
    }

    // A big-endian number of four bytes.
    #[tactic(auto, unfolding(crate::specs::Fields::uint32_at, crate::specs::Fields::has_room))]
    pub fn uint32(self, image: &[u8]) -> Read<u32>
        ensures { result ≡ uint32_at image.now self }
    {
        let Cursor { at, end } = self;
        if self.has(image, 4) {
            let n = u32::from_be_bytes([image[at], image[at + 1], image[at + 2], image[at + 3]]);
            return Ok((n, Cursor { at: at + 4, end }));
        }
        Err(Refusal::Length.at(at))
    }

    // k bytes that have no length bytes before them.
    #[tactic(auto, unfolding(crate::specs::Fields::bytes_at, crate::specs::Fields::has_room))]
    pub fn bytes(self, image: &[u8], k: usize) -> Read<Part>
        ensures { result ≡ bytes_at image.now self k }
    {
        let Cursor { at, end } = self;
        if self.has(image, k) {
            let part = Part {
                start: at,
                length: k,
            };
            return Ok((part, Cursor { at: at + k, end }));
        }
        Err(Refusal::Length.at(at))
    }

    // A uint32 length and that many bytes. A refusal is the whole string's, length bytes included.
    #[tactic(auto, unfolding(crate::specs::Fields::string_at))]
    pub fn string(self, image: &[u8]) -> Read<Part>
        ensures { result ≡ string_at image.now self }
    {
        let (n, body) = self.uint32(image)?;
        body.bytes(image, n as usize)
            .map_err(|_| Refusal::Length.at(self.at))
    }

    // A string whose length must be k. What a longer one has too much begins k bytes into it.
    #[tactic(auto, unfolding(crate::specs::Fields::fixed_at))]
    pub fn fixed(self, image: &[u8], k: usize) -> Read<Part>
        ensures { result ≡ fixed_at image.now self k }
    {
        let at = self.at;
        let (part, next) = self.string(image)?;
        let length = part.length;
        if length < k {
            return Err(Refusal::Length.at(at));
        }
        if k < length {
            return Err(Refusal::TrailingData(length - k).at(at + 4 + k));
        }
        Ok((part, next))
    }

    // Nothing may be left of the enclosing part.
    #[tactic(auto, unfolding(crate::specs::Fields::end_at))]
    pub fn finish(self) -> Result<(), Fault>
        ensures { result ≡ end_at self }
    {
        let Cursor { at, end } = self;
        if at < end {
            return Err(Refusal::TrailingData(end - at).at(at));
        }
        Ok(())
    }
}

// The bytes of a part of the image, as that part of the caller's own; none where it isn't within it.
pub fn view(image: &[u8], part: Part) -> &[u8]
    ensures { IsView result image.entry part }
{
    let start = part.start;
    let length = part.length;
    if image.len() < start {
        return &image[..0];
    }
    if image.len() - start < length {
        return &image[..0];
    }
    &image[start..start + length]
}

// The byte at an index, or 0 past the end.
pub fn byte(image: &[u8], i: usize) -> u8
    ensures { result ≡ get_or image.now i 0 }
{
    image.get(i).copied().unwrap_or(0)
}

// Are the bytes the same? All are looked at: a loop with one way out is made into vector code, where `==` of slices is a call.
pub fn same(a: &[u8], b: &[u8]) -> bool
    ensures { result ≡ same_bytes a.now b.now }
{
    if a.len() != b.len() {
        return false;
    }
    let mut equal = true;
    for i in 0..a.len() {
        equal &= a[i] == b[i];
    }
    equal
}
