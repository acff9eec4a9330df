// The exports of the archive that firmware links (libsae.a, include/sae.h): each calls the function of its name in `sae`, under the same contract.
#![tactic(auto)]

ghost use Rattle.initial.specs.Initial.{made};
ghost use Rattle.calls.specs.Calls.{initializes_from, initiates, kills, receives, expires};
ghost use Rattle.writer.specs.Writer.{writes_parts, writes_record};
ghost use Rattle.lookups.specs.Lookups.{asks_deadline, asks_offset, asks_good};
ghost use Rattle.moves.specs.Moves.{moves};
ghost use Rattle.moves.specs.declared.Direction.TheVariants.{Forward, Back};
ghost use Rattle.sae.specs.Interface.{Returns, Reads, Writes, Asks, Fills, MovesTo};

// Set up.
#[unsafe(no_mangle)]
pub extern "C" fn sae_initialize(
    t: &mut [u8],
    own: &[u8; 6],
    settings: &[u8; 16],
    answer: &mut [u8; 28],
) -> u32
    ensures { Returns result t.new answer.new answer.old (initializes_from made t.old own.now settings.now) }
{
    sae::sae_initialize(t, own, settings, answer)
}

// Start.
#[unsafe(no_mangle)]
pub extern "C" fn sae_initiate(
    t: &mut [u8],
    address: &[u8; 6],
    time: u32,
    fresh: &[u8],
    answer: &mut [u8; 28],
) -> u32
    ensures { Returns result t.new answer.new answer.old (initiates t.old address.now time fresh.now) }
{
    sae::sae_initiate(t, address, time, fresh, answer)
}

// Kill.
#[unsafe(no_mangle)]
pub extern "C" fn sae_kill(t: &mut [u8], address: &[u8; 6], answer: &mut [u8; 28]) -> u32
    ensures { Returns result t.new answer.new answer.old (kills t.old address.now) }
{
    sae::sae_kill(t, address, answer)
}

// Frame received.
#[unsafe(no_mangle)]
pub extern "C" fn sae_receive(
    t: &mut [u8],
    address: &[u8; 6],
    time: u32,
    body: &[u8],
    fresh: &[u8],
    expected: &[u8],
    verified: u8,
    answer: &mut [u8; 28],
) -> u32
    ensures { Returns result t.new answer.new answer.old (receives t.old address.now time body.now fresh.now expected.now verified) }
{
    sae::sae_receive(t, address, time, body, fresh, expected, verified, answer)
}

// Clock.
#[unsafe(no_mangle)]
pub extern "C" fn sae_expire(t: &mut [u8], time: u32, answer: &mut [u8; 28]) -> u32
    ensures { Returns result t.new answer.new answer.old (expires t.old time) }
{
    sae::sae_expire(t, time, answer)
}

// Write a frame from its parts.
#[unsafe(no_mangle)]
pub extern "C" fn sae_write_parts(
    t: &[u8],
    sequence: u16,
    status: u16,
    group: u16,
    counter: u16,
    token: &[u8],
    rest: &[u8],
    out: &mut [u8],
    written: &mut u32,
) -> u32
    ensures { Writes result out.new written.new written.old (writes_parts t.now sequence status group counter token.now rest.now out.old) }
{
    sae::sae_write_parts(
        t, sequence, status, group, counter, token, rest, out, written,
    )
}

// Write a frame of a record.
#[unsafe(no_mangle)]
pub extern "C" fn sae_write_record(
    t: &[u8],
    address: &[u8; 6],
    sequence: u16,
    value: &[u8],
    out: &mut [u8],
    written: &mut u32,
) -> u32
    ensures { Writes result out.new written.new written.old (writes_record t.now address.now sequence value.now out.old) }
{
    sae::sae_write_record(t, address, sequence, value, out, written)
}

// Read a frame's parts. Causes 2 and 7.
#[unsafe(no_mangle)]
pub extern "C" fn sae_read(t: &[u8], body: &[u8], parts: &mut [u8; 20]) -> u32
    ensures { Reads result parts.new parts.old t.now body.now }
{
    sae::sae_read(t, body, parts)
}

// How long until the next deadline.
#[unsafe(no_mangle)]
pub extern "C" fn sae_next_deadline(t: &[u8], time: u32, milliseconds: &mut u32) -> u32
    ensures { Asks result milliseconds.new milliseconds.old (asks_deadline t.now time) }
{
    sae::sae_next_deadline(t, time, milliseconds)
}

// Where the record of an address lies.
#[unsafe(no_mangle)]
pub extern "C" fn sae_find(t: &[u8], address: &[u8; 6], offset: &mut u32) -> u32
    ensures { Asks result offset.new offset.old (asks_offset t.now address.now) }
{
    sae::sae_find(t, address, offset)
}

// How many good links, from the 32 octets of a header alone.
#[unsafe(no_mangle)]
pub extern "C" fn sae_good_links(header: &[u8], good: &mut u32) -> u32
    ensures { Asks result good.new good.old (asks_good header.now) }
{
    sae::sae_good_links(header, good)
}

// Fill the number of good links into a table otherwise sound.
#[unsafe(no_mangle)]
pub extern "C" fn sae_fill(t: &mut [u8]) -> u32
    ensures { Fills result t.new t.old }
{
    sae::sae_fill(t)
}

// Move a table of the form with records of 864 octets to that of 1,080, into a target lent beside it.
#[unsafe(no_mangle)]
pub extern "C" fn sae_widen(source: &[u8], target: &mut [u8]) -> u32
    ensures { MovesTo result target.new (moves Forward source.now target.old) }
{
    sae::sae_widen(source, target)
}

// And back.
#[unsafe(no_mangle)]
pub extern "C" fn sae_narrow(source: &[u8], target: &mut [u8]) -> u32
    ensures { MovesTo result target.new (moves Back source.now target.old) }
{
    sae::sae_narrow(source, target)
}
