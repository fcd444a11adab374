// A key over a curve, as the writers check, measure and put it. Kind, point and scalar stay parameters: a blob has no
// scalar, so a struct of the three would ask more of who has a public key alone.
#![tactic(auto)]

ghost use Rattle.std.specs.Prelude.{◌≡◌, ◌++◌, ◌+◌, ◌<◌, length};
ghost use Rattle.fields.specs.Bytes.{string, join};
ghost use Rattle.names.specs.declared.Algorithm.TheVariants.{Elliptic as OnCurve};
ghost use Rattle.format.specs.Format.{of_point, of_scalar, point_tag, not_zero, blob, private_field, minimal, written_scalar, written_pair};
ghost use Rattle.buffer.specs.Puts.{IsPut};
ghost use Rattle.buffer.specs.Runs.{IsRun};
ghost use Rattle.mpint.specs.Mpint.{significant};
ghost use Rattle.writer_parts.specs.Checks.{key_checked, passed};
ghost use Rattle.writer_parts.specs.Sizes.{capped};
ghost use Rattle.writer_curve.specs.Taken.{scalar_taken};
ghost use Rattle.writer_curve.specs.Parts.{name_fields};

use fields::Refusal;
use names::{Curve, Elliptic};
use writer_parts::{added, has_room};
use writer_reply::Written;

// The algorithm's name and the curve's, as strings.
#[tactic(auto, unfolding(fields::specs::Bytes::string, fields::specs::Bytes::uint32))]
fn put_names(out: &mut [u8], at: usize, algorithm: Elliptic) -> usize
    ensures { IsPut out.old at (join (name_fields algorithm)) result out.new }
{
    match algorithm {
        Elliptic::Ed25519 => buffer::put(out, at, b"\0\0\0\x0bssh-ed25519"),
        Elliptic::Ecdsa(Curve::Nistp256) => {
            buffer::put(out, at, b"\0\0\0\x13ecdsa-sha2-nistp256\0\0\0\x08nistp256")
        }
        Elliptic::Ecdsa(Curve::Nistp384) => {
            buffer::put(out, at, b"\0\0\0\x13ecdsa-sha2-nistp384\0\0\0\x08nistp384")
        }
        Elliptic::Ecdsa(Curve::Nistp521) => {
            buffer::put(out, at, b"\0\0\0\x13ecdsa-sha2-nistp521\0\0\0\x08nistp521")
        }
    }
}

#[tactic(auto, unfolding(fields::specs::Bytes::string, fields::specs::Bytes::uint32))]
fn names_length(algorithm: Elliptic) -> usize
    ensures { (result ≡ length (join (name_fields algorithm))) × (result < 64) }
{
    match algorithm {
        Elliptic::Ed25519 => 15,
        Elliptic::Ecdsa(_) => 35,
    }
}

// A public key: the algorithm's name, the curve's, the public string or point.
fn put_key(out: &mut [u8], at: usize, algorithm: Elliptic, point: &[u8]) -> usize
    ensures { IsRun out.old at (blob (OnCurve algorithm) (of_point point.now)) result out.new }
{
    let a = put_names(out, at, algorithm);
    buffer::put_string(out, a, point)
}

// The length of a public blob.
pub fn blob_length(algorithm: Elliptic, point: &[u8]) -> usize
    ensures { result ≡ capped (length (blob (OnCurve algorithm) (of_point point.now))) }
{
    added(names_length(algorithm) + 4, point.len())
}

// A public blob, as a string. `Numbers::put_blob` goes alike: one for both would need the two `put_key` public, and
// what these leave where there is no room isn't determined.
pub fn put_blob(out: &mut [u8], at: usize, algorithm: Elliptic, point: &[u8]) -> usize
    ensures { IsPut out.old at (string (blob (OnCurve algorithm) (of_point point.now))) result out.new }
{
    let size = blob_length(algorithm, point);
    if !has_room(out.len(), at, added(4, size)) {
        return at;
    }
    let a = buffer::put_uint32(out, at, size);
    put_key(out, a, algorithm, point)
}

// Two parts in one string.
fn put_two(out: &mut [u8], at: usize, first: &[u8], second: &[u8]) -> usize
    ensures { IsRun out.old at (string (first.now ++ second.now)) result out.new }
{
    let a = buffer::put_uint32(out, at, first.len() + second.len());
    let b = buffer::put(out, a, first);
    buffer::put(out, b, second)
}

// A scalar of any size without its leading zeros.
#[tactic(auto, using(mpint::specs::Zeros::zeros_le), unfolding(mpint::specs::Mpint::significant))]
fn trimmed(scalar: &[u8]) -> &[u8]
    ensures { result.now ≡ significant scalar.now }
{
    &scalar[mpint::zeros_before(scalar)..]
}

// A scalar of any size as the minimal mpint: without its leading zeros, after a zero where the first byte that
// is left asks for one.
fn put_scalar(out: &mut [u8], at: usize, scalar: &[u8]) -> usize
    ensures { IsRun out.old at (string (minimal scalar.now)) result out.new }
{
    let bytes = trimmed(scalar);
    if key_public::needs_leading_zero(bytes) {
        return put_two(out, at, b"\0", bytes);
    }
    buffer::put_string(out, at, bytes)
}

// The private bytes: seed and public string in one string, or the scalar.
fn put_private(out: &mut [u8], at: usize, algorithm: Elliptic, point: &[u8], scalar: &[u8]) -> usize
    ensures { IsRun out.old at (private_field algorithm point.now (written_scalar algorithm scalar.now)) result out.new }
{
    match algorithm {
        Elliptic::Ed25519 => put_two(out, at, scalar, point),
        Elliptic::Ecdsa(_) => put_scalar(out, at, scalar),
    }
}

fn scalar_length(scalar: &[u8]) -> usize
    ensures { result ≡ capped (length (string (minimal scalar.now))) }
{
    let bytes = trimmed(scalar);
    if key_public::needs_leading_zero(bytes) {
        return added(5, bytes.len());
    }
    added(4, bytes.len())
}

fn private_length(algorithm: Elliptic, point: &[u8], scalar: &[u8]) -> usize
    ensures { result ≡ capped (length (private_field algorithm point.now (written_scalar algorithm scalar.now))) }
{
    match algorithm {
        Elliptic::Ed25519 => added(added(4, scalar.len()), point.len()),
        Elliptic::Ecdsa(_) => scalar_length(scalar),
    }
}

// The length of a keypair, its scalar as the minimal mpint.
pub fn pair_length(algorithm: Elliptic, point: &[u8], scalar: &[u8]) -> usize
    ensures { result ≡ capped (length (written_pair (OnCurve algorithm) (of_point point.now) (of_scalar scalar.now))) }
{
    added(
        blob_length(algorithm, point),
        private_length(algorithm, point, scalar),
    )
}

// A keypair: the public key and the private bytes, a scalar as the minimal mpint.
pub fn put_pair(
    out: &mut [u8],
    at: usize,
    algorithm: Elliptic,
    point: &[u8],
    scalar: &[u8],
) -> usize
    ensures { IsPut out.old at (written_pair (OnCurve algorithm) (of_point point.now) (of_scalar scalar.now)) result out.new }
{
    if !has_room(out.len(), at, pair_length(algorithm, point, scalar)) {
        return at;
    }
    let a = put_key(out, at, algorithm, point);
    put_private(out, a, algorithm, point, scalar)
}

// An uncompressed point begins with 4.
fn tagged(algorithm: Elliptic, point: &[u8]) -> bool
    ensures { result ≡ point_tag algorithm point.now }
{
    match algorithm {
        Elliptic::Ed25519 => true,
        Elliptic::Ecdsa(_) => fields::byte(point, 0) == 4,
    }
}

// Is a scalar above zero? A seed may be zero.
fn not_zero(algorithm: Elliptic, scalar: &[u8]) -> bool
    ensures { result ≡ not_zero algorithm scalar.now }
{
    match algorithm {
        Elliptic::Ed25519 => true,
        Elliptic::Ecdsa(_) => mpint::zeros_before(scalar) < scalar.len(),
    }
}

// How long private bytes are as they are taken: with zeros filled in front of a scalar, or as they are lent.
// `filling` stays a bool: the contracts are stated by it (`scalar_taken`).
fn taken_length(filling: bool, algorithm: Elliptic, scalar: &[u8]) -> usize
    ensures { result ≡ length (scalar_taken filling algorithm scalar.now) }
{
    if filling {
        return key_material::zeros_missing(algorithm, scalar) + scalar.len();
    }
    scalar.len()
}

// What a writer refuses of a key, or the length 0. A record's scalar is filled with zeros in front.
#[tactic(auto, using(crate::specs::Taken::taken_zero), unfolding(writer_parts::specs::Checks::key_checked))]
pub fn check(filling: bool, algorithm: Elliptic, point: &[u8], scalar: &[u8]) -> Written
    ensures { result ≡ key_checked (OnCurve algorithm) (of_point point.now) (of_scalar (scalar_taken filling algorithm scalar.now)) passed }
{
    if point.len() != key_public::public_length(algorithm)
        || taken_length(filling, algorithm, scalar) != key_public::private_length(algorithm)
    {
        return writer_reply::refused(Refusal::Length);
    }
    if !tagged(algorithm, point) || !not_zero(algorithm, scalar) {
        return writer_reply::refused(Refusal::FormatEncoding);
    }
    Ok(0)
}
