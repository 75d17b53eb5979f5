// The octets that wait for the rest of their packet, behind the blocks: how many were taken, then those that are kept.
ghost use Rattle.std.specs.Prelude.{◌≡◌, true, ◌++◌, ◌+◌, ◌≤◌, ◌<◌, drop, get_or, length};
ghost use Rattle.model.specs.Lengths as Lengths;
ghost use Rattle.model.specs.Octets.{Octets};
ghost use Rattle.model.specs.State.{with_waiting};
ghost use Rattle.model.specs.Stream.{grown, kept_count, length_said};
ghost use Rattle.model.specs.Layout.{decode, encode, line_cleared};
ghost use Rattle.model.specs.Meanings.{state_ok};
ghost use Rattle.octets.specs.Parts.{write_at};

use model::lengths;

// Where those kept lie.
pub const KEPT: usize = 17496;

// How many octets were taken of the packet that is coming in.
pub fn taken(s: &[u8]) -> usize
    requires { length s.now ≡ Lengths.state }
    ensures { (result ≡ (decode s.now).waiting.taken) × (result < 4294967296) }
{
    octets::u32_at(s, lengths::BLOCKS_END) as usize
}

// How long the packet is by the octets that lie there.
pub fn kept_said(s: &[u8]) -> usize
    requires { length s.now ≡ Lengths.state }
    ensures { (result ≡ length_said (drop 4 (drop Lengths.blocks_end s.now))) × (result < 65542) }
{
    6 + octets::u16_at(s, KEPT + 4) as usize
}

// How many are kept of n octets of a packet of this length.
pub fn kept_count(n: usize, said: usize) -> usize
    ensures { (o : Octets) → length_said o ≡ said → result ≡ kept_count n o }
{
    if lengths::LONGEST_KEPT < said && lengths::LONG_HEAD < n {
        return lengths::LONG_HEAD;
    }
    n
}

// The octet at place k, of those kept and those of the lump behind them; 0 where there is none yet.
fn octet_in(s: &[u8], n: usize, lump: &[u8], k: usize) -> u64
    requires { (state_ok s.now ≡ true) × (length s.now ≡ Lengths.state) × (n ≡ (decode s.now).waiting.taken) × (k < 6) }
    ensures { (result ≡ get_or ((decode s.now).waiting.kept ++ lump.now) k 0) × (result < 256) }
{
    if k < n {
        return u64::from(s[KEPT + k]);
    }
    if k - n < lump.len() {
        return u64::from(lump[k - n]);
    }
    0
}

// How long the packet is that is coming in, by those kept and those of the lump behind them.
pub fn length_said(s: &[u8], lump: &[u8]) -> usize
    requires { (state_ok s.now ≡ true) × (length s.now ≡ Lengths.state) }
    ensures { (result ≡ length_said ((decode s.now).waiting.kept ++ lump.now)) × (result < 65542) }
{
    let n = taken(s);
    let low = octet_in(s, n, lump, 4);
    let high = octet_in(s, n, lump, 5);
    6 + (low + 256 * high) as usize
}

// Takes octets in, of a packet of this length: those that are kept behind those kept before, and the number.
pub fn grow(s: &mut [u8], said: usize, lump: &[u8])
    requires { (state_ok s.old ≡ true) × (length s.old ≡ Lengths.state) × (said ≡ length_said ((decode s.old).waiting.kept ++ lump.now))
        × ((decode s.old).waiting.taken + length lump.now ≤ said) × (said < 65542) }
    ensures { s.new ≡ encode (with_waiting (decode s.old) (grown (decode s.old).waiting lump.now)) }
{
    let n = taken(s);
    let before = kept_count(n, said);
    let after = kept_count(n + lump.len(), said);
    octets::put32(s, lengths::BLOCKS_END, (n + lump.len()) as u64);
    octets::copy_into(s, KEPT + before, &lump[..after - before]);
}

// Writes what is kept of a packet of this length to the front of a buffer: those kept before, and behind them those of the lump.
pub fn gather(out: &mut [u8], s: &[u8], said: usize, lump: &[u8])
    requires { (state_ok s.now ≡ true) × (length s.now ≡ Lengths.state) × (said ≡ length_said ((decode s.now).waiting.kept ++ lump.now))
        × ((decode s.now).waiting.taken + length lump.now ≤ said) × (length out.old ≡ Lengths.longest_kept) }
    ensures { out.new ≡ write_at out.old 0 (grown (decode s.now).waiting lump.now).kept }
{
    let n = taken(s);
    let before = kept_count(n, said);
    let after = kept_count(n + lump.len(), said);
    octets::copy_into(out, 0, &s[KEPT..KEPT + before]);
    octets::copy_into(out, before, &lump[..after - before]);
}

// Nothing waits any more.
pub fn clear(s: &mut [u8])
    requires { length s.old ≡ Lengths.state }
    ensures { s.new ≡ line_cleared s.old }
{
    octets::zero_fill(s, lengths::BLOCKS_END, lengths::WAITING);
}
