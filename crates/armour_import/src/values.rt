// The table of the signs' values, which an import builds once. Its type is apart from armour_export's `Alphabet`: each knows
// another fact of a table of another length.

ghost use Rattle.std.specs.Prelude.{◌≡◌};
ghost use Rattle.armour_signs.specs.Alphabet.{value_of, values};
ghost use Rattle.armour_text.specs.Base64.{bits_of_values};

// The value of each byte as a sign of base64.
#[derive(Drop)]
pub struct Values {
    table: [u8; 256],
    ghost of_signs: { table ≡ values },
}

fn bits(w: u8, x: u8, y: u8, z: u8) -> u32
    ensures { result ≡ bits_of_values w x y z }
{
    (((w as u32) * 64 + (x as u32)) * 64 + (y as u32)) * 64 + (z as u32)
}

impl Values {
    pub fn new() -> Values {
        Values {
            table: armour_signs::value_table(),
        }
    }

    fn value(&self, sign: u8) -> u8
        ensures { result ≡ value_of sign }
    {
        self.table[sign as usize]
    }

    // The 24 bits of four signs.
    pub fn bits_of(&self, w: u8, x: u8, y: u8, z: u8) -> u32
        ensures { result ≡ bits_of_values (value_of w) (value_of x) (value_of y) (value_of z) }
    {
        bits(self.value(w), self.value(x), self.value(y), self.value(z))
    }
}
