// Plays the cases of standard input, one to a line, and writes one line for each case.
//   read HEX    what a body is to a reader with groups 19 and 20: its length, kind and numbers; the lines `has` and `again` are of this body
//   has F V     a published field of that body, group, counter, token, scalar, element or value, or what stands behind a Confirm: whether the
//               reader hands back V for it, a number in decimal or octets in HEX (- for none)
//   again       that body written from the parts that the reader handed back: whether the octets are the same
//   new         a table of one slot, set up with the factory settings; it stands until the next
//   only        the same with group 19 alone
//   begin       start with the peer at reading 0, and a stock of zeros
//   frame HEX   a frame from the peer at reading 0, with verdict 1 and a stock of zeros
//   silent      the clock at every millisecond from 0 on: the readings at which it served, until the run is given up
// Reader and writer of `has` and `again` are the C functions over the table that stands. A line that begins with # is written again; any other
// line is left out. Calls write the number returned, event, stock group used, frames.
#![tactic(auto)]

ghost use Rattle.std.specs.Prelude.{◌<◌, ◌≤◌, length, IfOk};

use answers::Answer;
use causes::Refusal;
use frame::Body;
use groups::COMMIT;
use record::Settings;
use rules::{Event, Frame, Frames};
use std::fmt;
use std::io::{self, Read};

// Our own address, and the peer's.
const OWN: [u8; 6] = [2, 0, 0, 0, 0, 1];

const PEER: [u8; 6] = [2, 0, 0, 0, 0, 2];

// The octets of a table of one slot, and where its header has the number of groups.
const TABLE: usize = 1112;

const GROUPS_AT: usize = 22;

// Settings with group 19 alone.
const ONLY_19: Settings = Settings {
    count: 1,
    groups: [19, 0, 0],
    threshold: 5,
    period: 0,
    limit: 0,
};

// The most octets of the input that are played, and the most octets that are taken of a line's HEX: both are held in arrays, since a list that grows would
// make the program rest on the heap's contracts besides those of reading and writing.
const TEXT: usize = 65536;

const LONGEST: usize = 2400;

// As many readings a silent clock has, unless the run is given up before.
const READINGS: u32 = 100_000;

// The sequence numbers of Commits and Confirms, and the length of a Confirm's value.
const COMMITS: u16 = 1;

const CONFIRMS: u16 = 2;

const VALUE: usize = 32;

// ---- what is written

// A value of another crate, as it is written here.
#[derive(Drop)]
struct Shown<T>(T);

impl fmt::Display for Shown<Body> {
    fn fmt<W: fmt::Write>(&self, f: &mut fmt::Formatter<W>) -> fmt::Result {
        match self.0 {
            Body::Commit { group, token } => write!(f, "commit {group} {token}"),
            Body::Unsupported { group } => write!(f, "unsupported {group}"),
            Body::TokenRequest { group, token } => write!(f, "token-request {group} {token}"),
            Body::GroupRefusal { group } => write!(f, "group-refusal {group}"),
            Body::OtherCommit { status } => write!(f, "commit-status {status}"),
            Body::Confirm { counter } => write!(f, "confirm {counter}"),
            Body::OtherConfirm { status } => write!(f, "confirm-status {status}"),
        }
    }
}

impl fmt::Display for Shown<Frame> {
    fn fmt<W: fmt::Write>(&self, f: &mut fmt::Formatter<W>) -> fmt::Result {
        let Frame {
            sequence,
            status,
            group,
            counter,
        } = self.0;
        write!(f, "{sequence} {status} {group} {counter}")
    }
}

impl fmt::Display for Shown<Answer> {
    fn fmt<W: fmt::Write>(&self, f: &mut fmt::Formatter<W>) -> fmt::Result {
        let Answer {
            event,
            frames,
            afresh,
            ..
        } = self.0;
        write!(f, "0 {} {afresh}", u8::from(event))?;
        match frames {
            Frames::None => Ok(()),
            Frames::One(first) => write!(f, ", {}", Shown(first)),
            Frames::Two(first, second) => write!(f, ", {}, {}", Shown(first), Shown(second)),
        }
    }
}

// A refusal has no event, used no stock and names no frames.
impl fmt::Display for Shown<Result<Answer, Refusal>> {
    fn fmt<W: fmt::Write>(&self, f: &mut fmt::Formatter<W>) -> fmt::Result {
        match self.0 {
            Ok(answer) => write!(f, "{}", Shown(answer)),
            Err(cause) => write!(f, "{} 0 0", u32::from(cause)),
        }
    }
}

fn verdict(same: bool) -> &'static str {
    if same { "agrees" } else { "differs" }
}

// ---- what a line has

// A digit's value; any other octet counts as 0. Not `to_digit`, which takes capital letters too.
fn digit(c: u8) -> u8
    ensures { result < 16 }
{
    match c {
        b'0'..=b'9' => c - b'0',
        b'a'..=b'f' => c - b'a' + 10,
        _ => 0,
    }
}

// The octets of the text, two digits for each, as many as there is room for; a last digit alone is left out.
fn unhex<'a>(text: &[u8], out: &'a mut [u8]) -> &'a [u8] {
    let (pairs, _) = text.as_chunks::<2>();
    for (octet, [high, low]) in out.iter_mut().zip(pairs) {
        *octet = 16 * digit(*high) + digit(*low);
    }
    first(out, pairs.len())
}

// The number that the text has in decimal, if it is below 65,536; each octet counts as in HEX.
fn decimal(text: &[u8]) -> Option<u16> {
    let mut n: u16 = 0;
    for c in text {
        n = n.checked_mul(10)?.checked_add(u16::from(digit(*c)))?;
    }
    Some(n)
}

// The first n octets, or all.
fn first(s: &[u8], n: usize) -> &[u8] {
    s.get(..n).unwrap_or(s)
}

// The octets from an offset on, or none.
fn from(s: &[u8], at: usize) -> &[u8] {
    s.get(at..).unwrap_or(&[])
}

// ---- a body's parts

// What the reader hands back of a body. Octets that it does not have are an empty slice, as the writer takes them.
#[derive(Clone, Copy)]
struct Parts<'a> {
    sequence: u16,
    status: u16,
    group: u16,
    counter: u16,
    // A Commit's token, or what stands behind a Confirm.
    handed: &'a [u8],
    // Scalar and element, or a Confirm's value.
    rest: &'a [u8],
}

impl<'a> Parts<'a> {
    // None where the reader refuses the body.
    fn read(table: &[u8], body: &'a [u8]) -> Option<Parts<'a>> {
        // As many octets as the C function fills.
        let mut parts = [0u8; 20];
        if sae::sae_read(table, body, &mut parts) != 0 {
            return None;
        }
        let sequence = octets::get16(&parts, 0);
        let handed = from(body, octets::get32(&parts, 8) as usize);
        let rest = match octets::get32(&parts, 16) {
            0 => &[],
            at => from(body, at as usize),
        };
        Some(Parts {
            sequence,
            status: octets::get16(&parts, 2),
            group: octets::get16(&parts, 4),
            counter: octets::get16(&parts, 6),
            handed: first(handed, octets::get32(&parts, 12) as usize),
            rest: if sequence == CONFIRMS {
                first(rest, VALUE)
            } else {
                rest
            },
        })
    }

    fn token(&self) -> &'a [u8] {
        if self.sequence == COMMITS {
            self.handed
        } else {
            &[]
        }
    }

    fn behind(&self) -> &'a [u8] {
        if self.sequence == CONFIRMS {
            self.handed
        } else {
            &[]
        }
    }

    // Whether a field, by the first letter of its name, is what the text has.
    fn has(&self, letter: u8, text: &[u8]) -> bool {
        let mut out = [0; LONGEST];
        let wanted = unhex(text, &mut out);
        let scalar = groups::scalar_length(self.group);
        match letter {
            b'g' => decimal(text) == Some(self.group),
            b'c' => decimal(text) == Some(self.counter),
            b't' => self.token() == wanted,
            b'b' => self.behind() == wanted,
            b's' => first(self.rest, scalar) == wanted,
            b'e' => self.sequence == COMMITS && from(self.rest, scalar) == wanted,
            b'v' => self.sequence == CONFIRMS && self.rest == wanted,
            _ => false,
        }
    }
}

// ---- cases

// A stock of zeros for two groups.
static STOCK: [u8; 2 * COMMIT] = [0; 2 * COMMIT];

// The table that stands, and the body read last.
#[derive(Drop)]
struct Bench {
    table: [u8; TABLE],
    body: [u8; LONGEST],
    length: usize,
}

impl Bench {
    // The stock goes by the header's number of groups.
    fn stock(&self) -> &'static [u8] {
        if self.table[GROUPS_AT] == 2 {
            &STOCK
        } else {
            &STOCK[..COMMIT]
        }
    }

    fn body(&self) -> &[u8] {
        first(&self.body, self.length)
    }

    fn read(&mut self, rt: &impl Print, text: &[u8]) -> io::Result<()> {
        self.length = unhex(text, &mut self.body).len();
        let length = self.length;
        match frame::read(&[19, 20], self.body()) {
            None => println!(rt; "read {length} refused 7"),
            Some(body) => println!(rt; "read {length} {}", Shown(body)),
        }
    }

    // The field's name, a space, then what is published for it.
    fn has(&self, rt: &impl Print, text: &[u8]) -> io::Result<()> {
        let Some(&letter) = text.first() else {
            return Ok(());
        };
        let end = text.iter().position(|c| *c == b' ').unwrap_or(text.len());
        let same = match Parts::read(&self.table, self.body()) {
            None => false,
            Some(parts) => parts.has(letter, from(text, end + 1)),
        };
        rt.write_all(&text[..end])?;
        println!(rt; " {}", verdict(same))
    }

    fn again(&self, rt: &impl Print) -> io::Result<()> {
        // 170 shows what the C function left out.
        let mut out = [170; LONGEST];
        let mut length = 0;
        if let Some(parts) = Parts::read(&self.table, self.body()) {
            sae::sae_write_parts(
                &self.table,
                parts.sequence,
                parts.status,
                parts.group,
                parts.counter,
                parts.token(),
                parts.rest,
                &mut out,
                &mut length,
            );
        }
        let same = first(&out, length as usize) == self.body();
        println!(rt; "again {length} {}", verdict(same))
    }

    fn set_up(&mut self, rt: &impl Print, name: &str, settings: Settings) -> io::Result<()> {
        let answer = engine::initialize(&mut self.table, OWN, settings);
        println!(rt; "{name} {}", Shown(answer))
    }

    fn begin(&mut self, rt: &impl Print) -> io::Result<()> {
        let stock = self.stock();
        let answer = engine::initiate(&mut self.table, PEER, 0, stock);
        println!(rt; "begin {}", Shown(answer))
    }

    fn frame(&mut self, rt: &impl Print, text: &[u8]) -> io::Result<()> {
        let mut out = [0; LONGEST];
        let body = unhex(text, &mut out);
        let stock = self.stock();
        let answer = engine::receive(&mut self.table, PEER, 0, body, stock, &[9; 32], 1);
        println!(rt; "frame {}", Shown(answer))
    }

    fn silent(&mut self, rt: &impl Print) -> io::Result<()> {
        print!(rt; "silent")?;
        for time in 0..READINGS {
            let Ok(Some(answer)) = engine::expire(&mut self.table, time) else {
                continue;
            };
            if !matches!(answer.frames, Frames::None) {
                print!(rt; " {time}")?;
            }
            if matches!(answer.event, Event::Abandoned) {
                print!(rt; " given up {time}")?;
                break;
            }
        }
        println!(rt; "")
    }

    // A case, or a remark, by the first letter of its line.
    fn play(&mut self, rt: &impl Print, line: &[u8]) -> io::Result<()> {
        if line.len() < 3 {
            return Ok(());
        }
        match line[0] {
            b'#' => {
                rt.write_all(line)?;
                println!(rt; "")
            }
            b'r' => self.read(rt, from(line, 5)),
            b'h' => self.has(rt, from(line, 4)),
            b'a' => self.again(rt),
            b'n' => self.set_up(rt, "new", Settings::factory()),
            b'o' => self.set_up(rt, "only", ONLY_19),
            b'b' => self.begin(rt),
            b'f' => self.frame(rt, from(line, 6)),
            b's' => self.silent(rt),
            _ => Ok(()),
        }
    }
}

// Reads until the buffer is full or the input ends; answers how many octets came.
fn read_full(input: &mut impl Read, buffer: &mut [u8]) -> io::Result<usize>
    ensures { IfOk result (λ n. n ≤ length buffer.new) }
{
    let mut done: usize = 0;
    while done < buffer.len() {
        let n = input.read(&mut buffer[done..])?;
        if n == 0 {
            return Ok(done);
        }
        done += n;
    }
    Ok(done)
}

fn main(rt: HostRuntime) -> io::Result<()> {
    let mut text = [0; TEXT];
    let n = read_full(&mut rt.reader(), &mut text)?;
    let mut bench = Bench {
        table: [0; TABLE],
        body: [0; LONGEST],
        length: 0,
    };
    for line in text[..n].split(|c| *c == b'\n') {
        bench.play(&rt, line)?;
    }
    Ok(())
}
