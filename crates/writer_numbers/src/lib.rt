// An RSA key's six mpints, as the writers check, measure and put them.
#![tactic(auto)]

ghost use Rattle.std.specs.Prelude.{◌≡◌, length};
ghost use Rattle.fields.specs.Bytes.{string};
ghost use Rattle.names.specs.declared.Algorithm.TheVariants.{Rsa};
ghost use Rattle.names.specs.Algorithms.{algorithm_name};
ghost use Rattle.mpint.specs.Mpint.{at_most, modulus_size};
ghost use Rattle.format.specs.Format.{of_modulus, blob, written_pair};
ghost use Rattle.buffer.specs.Puts.{IsPut};
ghost use Rattle.buffer.specs.Runs.{IsRun};
ghost use Rattle.writer_parts.specs.Checks.{all_mpints, sizes_fit, key_checked, passed};
ghost use Rattle.writer_parts.specs.Sizes.{capped};
ghost use Rattle.writer_numbers.specs.Numbers.{public_numbers, private_numbers};

use fields::Refusal;
use mpint::is_mpint;
use writer_parts::{added, has_room};
use writer_reply::Written;

// The six numbers of an RSA key.
#[derive(Clone, Copy)]
pub struct Numbers<'a> {
    pub n: &'a [u8],
    pub e: &'a [u8],
    pub d: &'a [u8],
    pub iqmp: &'a [u8],
    pub p: &'a [u8],
    pub q: &'a [u8],
}

// Has a number at most as many bits as the modulus n has? One that has no more bytes than these bits fill is
// not looked at.
fn fits(n: &[u8], bits: usize, number: &[u8]) -> bool
    requires { modulus_size n.now ≡ Some bits }
    ensures { result ≡ at_most number.now n.now }
{
    number.len() <= bits / 8 || mpint::at_most(number, n)
}

// The algorithm's name, as a string.
#[tactic(auto, unfolding(fields::specs::Bytes::string, fields::specs::Bytes::uint32))]
fn put_algorithm(out: &mut [u8], at: usize) -> usize
    ensures { IsPut out.old at (string (algorithm_name Rsa)) result out.new }
{
    buffer::put(out, at, b"\0\0\0\x07ssh-rsa")
}

// A public key: the name, e and n.
fn put_key(out: &mut [u8], at: usize, n: &[u8], e: &[u8]) -> usize
    ensures { IsRun out.old at (blob Rsa (of_modulus n.now e.now)) result out.new }
{
    let a = put_algorithm(out, at);
    let b = buffer::put_string(out, a, e);
    buffer::put_string(out, b, n)
}

// The length of a public blob. It and `put_blob` are of n and e: who has a public key alone has no other numbers.
pub fn blob_length(n: &[u8], e: &[u8]) -> usize
    ensures { result ≡ capped (length (blob Rsa (of_modulus n.now e.now))) }
{
    added(added(19, e.len()), n.len())
}

// A public blob, as a string. `writer_curve::put_blob` says why it is another.
pub fn put_blob(out: &mut [u8], at: usize, n: &[u8], e: &[u8]) -> usize
    ensures { IsPut out.old at (string (blob Rsa (of_modulus n.now e.now))) result out.new }
{
    let size = blob_length(n, e);
    if !has_room(out.len(), at, added(4, size)) {
        return at;
    }
    let a = buffer::put_uint32(out, at, size);
    put_key(out, a, n, e)
}

impl<'a> Numbers<'a> {
    // Are all six positive and minimal?
    #[tactic(auto, unfolding(writer_parts::specs::Checks::all_mpints))]
    fn all_mpints(&self) -> bool
        ensures { result ≡ all_mpints (public_numbers self.now) (private_numbers self.now) }
    {
        is_mpint(self.n)
            && is_mpint(self.e)
            && is_mpint(self.d)
            && is_mpint(self.iqmp)
            && is_mpint(self.p)
            && is_mpint(self.q)
    }

    // Has the modulus its size, and no other number more bits?
    #[tactic(auto, unfolding(writer_parts::specs::Checks::sizes_fit))]
    fn sizes_fit(&self) -> bool
        ensures { result ≡ sizes_fit (public_numbers self.now) (private_numbers self.now) }
    {
        let Some(bits) = mpint::modulus_size(self.n) else {
            return false;
        };
        fits(self.n, bits, self.e)
            && fits(self.n, bits, self.d)
            && fits(self.n, bits, self.iqmp)
            && fits(self.n, bits, self.p)
            && fits(self.n, bits, self.q)
    }

    // What a writer refuses of a key, or the length 0.
    #[tactic(auto, unfolding(writer_parts::specs::Checks::key_checked))]
    pub fn check(&self) -> Written
        ensures { result ≡ key_checked Rsa (public_numbers self.now) (private_numbers self.now) passed }
    {
        if !self.all_mpints() {
            return writer_reply::refused(Refusal::FormatEncoding);
        }
        if !self.sizes_fit() {
            return writer_reply::refused(Refusal::Length);
        }
        Ok(0)
    }

    // The length of a keypair.
    pub fn pair_length(&self) -> usize
        ensures { result ≡ capped (length (written_pair Rsa (public_numbers self.now) (private_numbers self.now))) }
    {
        let public = added(added(35, self.n.len()), self.e.len());
        let two = added(added(public, self.d.len()), self.iqmp.len());
        added(added(two, self.p.len()), self.q.len())
    }

    // A keypair: the name and the six numbers.
    pub fn put_pair(&self, out: &mut [u8], at: usize) -> usize
        ensures { IsPut out.old at (written_pair Rsa (public_numbers self.now) (private_numbers self.now)) result out.new }
    {
        if !has_room(out.len(), at, self.pair_length()) {
            return at;
        }
        let at_n = put_algorithm(out, at);
        let at_e = buffer::put_string(out, at_n, self.n);
        let at_d = buffer::put_string(out, at_e, self.e);
        let at_iqmp = buffer::put_string(out, at_d, self.d);
        let at_p = buffer::put_string(out, at_iqmp, self.iqmp);
        let at_q = buffer::put_string(out, at_p, self.p);
        buffer::put_string(out, at_q, self.q)
    }
}
