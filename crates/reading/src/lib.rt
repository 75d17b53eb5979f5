// An image read through: table by table, controller by controller. What is told is how far it was right, or the first fault and where that begins.
#![tactic(auto)]

ghost use Rattle.std.specs.Prelude.{◌≡◌, ◌&&◌, [], map, ◌+◌, ◌-◌, ◌*◌, ◌≤◌, ◌<◌, length, drop, get_or, leb};
ghost use Rattle.std.proofs.Math.Option.{some};
ghost use Rattle.model.specs.declared.Hardware.{Hardware};
ghost use Rattle.model.specs.Octets.{same};
ghost use Rattle.model.specs.Image.{version_octet};
ghost use Rattle.model.specs.Tables.{any, chop, records_ok, rule_at, support_ok, table_rules};
ghost use Rattle.model.specs.Reading as Reading;
ghost use Rattle.model.specs.Reading.{either_version, goes_on, judge_as, only, walk, walk_records, walk_table, walk_tables};
ghost use Rattle.octets.specs.Parts.{part};
ghost use Rattle.reading.specs.Comes.{Comes, Continues, Judges};

use fields::FaultAt;
use model::{ImageFault, Version};

// Whether one of the n records of table k from a place on has the identity of the record at p.
fn repeats(k: usize, image: &[u8], place: usize, n: usize, p: usize) -> bool
    requires { (k < 6) × (place + (rule_at k).size * n ≤ length image.now) × (p + (rule_at k).size ≤ length image.now) }
    ensures { result ≡ any (same ((rule_at k).key (part image.now p (rule_at k).size)))
        (map (rule_at k).key (chop (rule_at k).size n (drop place image.now))) }
{
    let size = records::size_of(k);
    let mine = records::identity_at(k, image, p);
    let mut at = place;
    for _ in 0..n {
        if records::same_identity(mine, records::identity_at(k, image, at)) {
            return true;
        }
        at += size;
    }
    false
}

// Reads the n records of table k from a place on, one by one.
fn first_fault(
    k: usize,
    image: &[u8],
    place: usize,
    n: usize,
    supported: u32,
) -> Result<usize, FaultAt>
    requires { (k < 6) × (n ≤ 32) × (place ≤ length image.now) }
    ensures { (f : Hardware) → f.supported ≡ supported
        → Comes image.now (walk_records (rule_at k) f n [] (drop place image.now)) result }
{
    let size = records::size_of(k);
    let mut p = place;
    for j in 0..n {
        fields::whole(image, p, size)?;
        fields::kept(records::record_ok(k, image, p), ImageFault::BadRecord, p)?;
        fields::kept(records::supports(k, supported), ImageFault::BadRecord, p)?;
        fields::kept(!repeats(k, image, place, j, p), ImageFault::Repeated, p)?;
        p += size;
    }
    Ok(p)
}

// Whether the n records of table k from a place on are whole and keep the table's rules.
fn all_right(k: usize, image: &[u8], place: usize, n: usize, supported: u32) -> bool
    requires { (k < 6) × (n ≤ 32) × (place ≤ length image.now) }
    ensures { (f : Hardware) → f.supported ≡ supported
        → result ≡ leb ((rule_at k).size * n) (length image.now - place)
        && (records_ok (rule_at k) (chop (rule_at k).size n (drop place image.now))
        && support_ok (rule_at k) f (chop (rule_at k).size n (drop place image.now))) }
{
    records::size_of(k) * n <= image.len() - place
        && (n == 0
            || (records::supports(k, supported)
                && records::keeps_rule(k, image, place, n, records::list_word(n))))
}

// Reads table k at a place of the image. Its records are read one by one only where something is wrong with them.
fn table(k: usize, image: &[u8], place: usize, supported: u32) -> Result<usize, FaultAt>
    requires { (k < 6) × (place ≤ length image.now) }
    ensures { (f : Hardware) → f.supported ≡ supported
        → Comes image.now (walk_table (rule_at k) f (goes_on (drop place image.now))) result }
{
    fields::whole(image, place, 1)?;
    let n = usize::from(image[place]);
    fields::kept(n <= 32, ImageFault::BadCount, place)?;
    if all_right(k, image, place + 1, n, supported) {
        return Ok(place + 1 + records::size_of(k) * n);
    }
    first_fault(k, image, place + 1, n, supported)
}

// Reads the six tables at a place of the image.
fn tables(image: &[u8], place: usize, supported: u32) -> Result<usize, FaultAt>
    requires { place ≤ length image.now }
    ensures { (f : Hardware) → f.supported ≡ supported
        → Comes image.now (walk_tables f table_rules (goes_on (drop place image.now))) result }
{
    let mut p = place;
    for k in 0..6 {
        p = table(k, image, p, supported)?;
    }
    Ok(p)
}

// Reads a controller at a place of the image, whose index must be at least low: its fixed part, then its tables.
fn controller(version: Version, low: u8, image: &[u8], at: usize) -> Result<usize, FaultAt>
    requires { at ≤ length image.now }
    ensures { Continues image.now version low at result }
{
    let p = fields::fixed_part(version, u64::from(low), image, at)?;
    tables(image, p, octets::be32_at(image, at + 10) as u32)
}

// Reads the controllers of an image, as many as its count says.
fn controllers(version: Version, image: &[u8]) -> Result<usize, FaultAt>
    requires { 6 ≤ length image.now }
    ensures { Comes image.now (walk version (drop 5 image.now)) result }
{
    let mut low: u8 = 0;
    let mut at: usize = 6;
    for _ in 0..image[5] {
        let p = controller(version, low, image, at)?;
        low = image[at] + 1;
        at = p;
    }
    Ok(at)
}

// Judges an image as one of this version: its length, the number of controllers, the controllers, and that nothing is left over.
fn judge_as(version: Version, image: &[u8]) -> Result<Version, FaultAt>
    requires { (5 ≤ length image.now) × (get_or image.now 4 0 ≡ version_octet version) }
    ensures { Judges image.now (judge_as image.now (some version)) result }
{
    let told = octets::be32_at(image, 0);
    fields::kept(told == image.len() as u64, ImageFault::BadLength, 0)?;
    fields::whole(image, 5, 1)?;
    fields::kept(image[5] <= 4, ImageFault::BadIndex, 5)?;
    let p = controllers(version, image)?;
    fields::kept(image.len() <= p, ImageFault::BadLength, p)?;
    Ok(version)
}

// Judges an image of either version.
pub fn judge_either(image: &[u8]) -> Result<Version, FaultAt>
    ensures { Judges image.now (Reading.judge either_version image.now) result }
{
    fields::whole(image, 0, 5)?;
    match image[4] {
        1 => judge_as(Version::One, image),
        2 => judge_as(Version::Two, image),
        _ => Err(FaultAt {
            fault: ImageFault::BadVersion,
            at: 4,
        }),
    }
}

// The version octet of a version. It is a function, and no From: Version is declared in model, which holds no code, and u8 in std.
#[tactic(auto, unfolding(model::specs::Image::version_octet))]
pub fn version_octet(version: Version) -> u8
    ensures { result ≡ version_octet version }
{
    match version {
        Version::One => 1,
        Version::Two => 2,
    }
}

// Judges an image that has to be of this version.
pub fn judge_only(version: Version, image: &[u8]) -> Result<Version, FaultAt>
    ensures { Judges image.now (Reading.judge (only version) image.now) result }
{
    fields::whole(image, 0, 5)?;
    fields::kept(
        image[4] == version_octet(version),
        ImageFault::BadVersion,
        4,
    )?;
    judge_as(version, image)
}
