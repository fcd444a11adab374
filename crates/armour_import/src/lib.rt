// Import: the bytes that the text of an armoured file carries.
//
// Text, values and buffer go side by side: a struct that lends the three would bring a loan into each contract.
// All of the text is judged first, and only then decoded, so a refused import has written nothing.
#![tactic(auto)]

ghost use Rattle.std.specs.Prelude.{◌≡◌, ◌+◌, ◌/◌, ◌%◌, ◌≤◌, ◌<◌, length, drop};
ghost use Rattle.std.proofs.lemmas.List.Edits.{sets};
ghost use Rattle.writer_reply.specs.Reply.{Answers};
ghost use Rattle.armour_text.specs.Base64.{bytes_of_bits};
ghost use Rattle.armour_text.specs.Import.{carried, import_reply, import_left};
ghost use Rattle.armour_judge.specs.Rest.{EndedAt};
ghost use Rattle.armour_judge.specs.Signs.{FourAt};
ghost use Rattle.armour_import.specs.Fill.{Ready, Lines};
ghost use Rattle.armour_import.specs.FillTwo.{Full, Feed};
ghost use Rattle.armour_import.specs.Reply.{Body};

mod values;

use armour_judge::Four;
use fields::Refusal;
use values::Values;
use writer_reply::Written;

// Past a line end of a text that was judged.
fn after_end(text: &[u8], at: usize) -> usize
    requires { Feed text.now at }
    ensures { EndedAt text.now at result }
{
    if text[at] == b'\r' {
        return at + 2;
    }
    at + 1
}

// The next four signs of a text that was judged, of whose line an even number of columns is left: they stand in their line, after its end,
// or two before it and two after it.
fn four_at(text: &[u8], at: usize, left: usize) -> Four
    requires { Ready text.now at left × (left % 2 ≡ 0) }
    ensures { FourAt text.now at left result.w result.x result.y result.z result.at result.left }
{
    if 4 <= left {
        return Four {
            w: text[at],
            x: text[at + 1],
            y: text[at + 2],
            z: text[at + 3],
            at: at + 4,
            left: left - 4,
        };
    }
    if left == 0 {
        let p = after_end(text, at);
        return Four {
            w: text[p],
            x: text[p + 1],
            y: text[p + 2],
            z: text[p + 3],
            at: p + 4,
            left: 66,
        };
    }
    let p = after_end(text, at + 2);
    Four {
        w: text[at],
        x: text[at + 1],
        y: text[p],
        z: text[p + 1],
        at: p + 2,
        left: 68,
    }
}

// The bytes of 24 bits.
fn bytes_of(n: u32) -> [u8; 3]
    ensures { result ≡ bytes_of_bits n }
{
    [
        (n / 65536 % 256) as u8,
        (n / 256 % 256) as u8,
        (n % 256) as u8,
    ]
}

fn store_three(out: &mut [u8], o: usize, n: u32)
    requires { o + 3 ≤ length out.old }
    ensures { out.new ≡ sets out.old o (bytes_of_bits n) }
{
    let [a, b, c] = bytes_of(n);
    out[o] = a;
    out[o + 1] = b;
    out[o + 2] = c;
}

// The last bytes of a text that was judged, those from o on, fewer than three. The value of `A` is 0.
fn fill_rest(
    text: &[u8],
    at: usize,
    left: usize,
    values: &Values,
    o: usize,
    n: usize,
    out: &mut [u8],
)
    requires body { Body text.now n × Lines text.now (carried text.now) o at left }
    requires o_le_n { (o ≤ n) × (n < o + 3) × (n ≤ length out.old) × (left % 2 ≡ 0) }
    ensures { out.new ≡ sets out.old o (drop o (carried text.now)) }
{
    if n == o {
        return;
    }
    let f = four_at(text, at, left);
    if n - o == 1 {
        let [a, _, _] = bytes_of(values.bits_of(f.w, f.x, b'A', b'A'));
        out[o] = a;
        return;
    }
    let [a, b, _] = bytes_of(values.bits_of(f.w, f.x, f.y, b'A'));
    out[o] = a;
    out[o + 1] = b;
}

// The bytes of seventeen groups that come next in their line.
fn fill_run(text: &[u8], at: usize, values: &Values, o: usize, out: &mut [u8])
    requires { Full text.now (carried text.now) at o × (o + 51 ≤ length out.old) }
    ensures { (sets out.new (o + 51) (drop (o + 51) (carried text.now)) ≡ sets out.old o (drop o (carried text.now))) × (length out.new ≡ length out.old) }
{
    for i in 0..17 {
        let p = at + 4 * i;
        store_three(
            out,
            o + 3 * i,
            values.bits_of(text[p], text[p + 1], text[p + 2], text[p + 3]),
        );
    }
}

// The bytes of two whole lines that come next, and the place past them. The line end between them parts a group.
fn fill_two(text: &[u8], at: usize, values: &Values, o: usize, out: &mut [u8]) -> usize
    requires lines { Lines text.now (carried text.now) o at 0 }
    requires o_in_bounds { (o + 105 ≤ length (carried text.now)) × (o + 105 ≤ length out.old) }
    ensures lines { Lines text.now (carried text.now) (o + 105) result 0 }
    ensures text_after { (sets out.new (o + 105) (drop (o + 105) (carried text.now)) ≡ sets out.old o (drop o (carried text.now))) × (length out.new ≡ length out.old) }
{
    let p = after_end(text, at);
    let q = after_end(text, p + 70);
    fill_run(text, p, values, o, out);
    store_three(
        out,
        o + 51,
        values.bits_of(text[p + 68], text[p + 69], text[q], text[q + 1]),
    );
    fill_run(text, q + 2, values, o + 54, out);
    q + 70
}

// The bytes from `done` on; `fill` leaves fewer than 105 to it.
fn fill_last(text: &[u8], from: usize, values: &Values, done: usize, n: usize, out: &mut [u8])
    requires body { Body text.now n × Lines text.now (carried text.now) done from 0 }
    requires done_le_n { (done ≤ n) × (n ≤ length out.old) }
    ensures { out.new ≡ sets out.old done (drop done (carried text.now)) }
{
    let mut at = from;
    let mut left: usize = 0;
    let mut o = done;
    while 3 <= n - o {
        let f = four_at(text, at, left);
        store_three(out, o, values.bits_of(f.w, f.x, f.y, f.z));
        o += 3;
        at = f.at;
        left = f.left;
    }
    fill_rest(text, at, left, values, o, n, out);
}

// The bytes of a text that was judged, of which there are n. Each step says where the next begins, so here and above it is no `for`.
fn fill(text: &[u8], values: &Values, n: usize, out: &mut [u8])
    requires { Body text.now n × (n ≤ length out.old) }
    ensures { out.new ≡ sets out.old 0 (carried text.now) }
{
    let mut at: usize = 35;
    let mut o: usize = 0;
    while 105 <= n - o {
        at = fill_two(text, at, values, o, out);
        o += 105;
    }
    fill_last(text, at, values, o, n, out);
}

// The bytes that the text carries at the start of the buffer. Refused, which changes nothing: 2 for any text but export's, with
// LF or CR LF at each line's end, then 11 for more than 65,535 bytes, then 9 for want of room.
pub fn import(text: &[u8], out: &mut [u8]) -> Written
    ensures { Answers (import_reply text.now (length out.old)) (import_left text.now out.old) result out.new }
{
    let Some(n) = armour_judge::judge(text) else {
        return writer_reply::refused(Refusal::FormatEncoding);
    };
    if 65535 < n {
        return writer_reply::refused(Refusal::Size);
    }
    if out.len() < n {
        return writer_reply::refused(Refusal::Room);
    }
    fill(text, &Values::new(), n, out);
    Ok(n)
}
