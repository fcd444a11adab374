// The table of the signs, which an export builds once.

ghost use Rattle.std.specs.Prelude.{◌≡◌, ◌<◌};
ghost use Rattle.armour_signs.specs.Alphabet.{signs, sign_of};

// The signs of base64, each at its value.
#[derive(Drop)]
pub struct Alphabet {
    table: [u8; 64],
    ghost of_signs: { table ≡ signs },
}

impl Alphabet {
    pub fn new() -> Alphabet {
        Alphabet {
            table: armour_signs::sign_table(),
        }
    }

    pub fn sign(&self, value: u32) -> u8
        requires { value < 64 }
        ensures { result ≡ sign_of value }
    {
        self.table[value as usize]
    }
}
