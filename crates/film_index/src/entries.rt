// The C interface: typed entries, and whether two of them decode alike.
ghost use Rattle.group_alike.specs.Alike.{alike};
ghost use Rattle.film_status.specs.Status.{Returns, FillsRecords, one_number};
ghost use Rattle.film_entries.specs.Entries.{alike_numbers, roll_numbers, rap_numbers, tele_numbers, sap_numbers, rash_numbers, alst_numbers, point_numbers, pair_numbers};
ghost use Rattle.base_fields.specs.Answer.{within};
ghost use Rattle.group_entries.specs.Decoded.{decode_roll, decode_rap, decode_tele, decode_sap, decode_rash, decode_alst, rash_point, rash_points, alst_offset, alst_pair};

// out: 1 where two entries of one grouping type decode to the same value, else 0.
#[unsafe(no_mangle)]
pub extern "C" fn film_decode_alike(
    grouping_type: u32,
    a: &[u8],
    b: &[u8],
    out: &mut [u64; 1],
) -> u32
    ensures { Returns (alike grouping_type a.now b.now) alike_numbers out.old out.new result }
{
    film_entries::film_decode_alike(grouping_type, a, b, out)
}

// out: the distance, signed.
#[unsafe(no_mangle)]
pub extern "C" fn film_decode_roll(s: &[u8], out: &mut [i64; 1]) -> u32
    ensures { Returns (within s.now (decode_roll s.now)) roll_numbers out.old out.new result }
{
    film_entries::film_decode_roll(s, out)
}

// The same layout as a roll.
#[unsafe(no_mangle)]
pub extern "C" fn film_decode_prol(s: &[u8], out: &mut [i64; 1]) -> u32
    ensures { Returns (within s.now (decode_roll s.now)) roll_numbers out.old out.new result }
{
    film_entries::film_decode_prol(s, out)
}

// out: known (0 or 1), number of leading samples.
#[unsafe(no_mangle)]
pub extern "C" fn film_decode_rap(s: &[u8], out: &mut [u64; 2]) -> u32
    ensures { Returns (within s.now (decode_rap s.now)) rap_numbers out.old out.new result }
{
    film_entries::film_decode_rap(s, out)
}

// out: independently decodable (0 or 1).
#[unsafe(no_mangle)]
pub extern "C" fn film_decode_tele(s: &[u8], out: &mut [u64; 1]) -> u32
    ensures { Returns (within s.now (decode_tele s.now)) tele_numbers out.old out.new result }
{
    film_entries::film_decode_tele(s, out)
}

// out: dependent (0 or 1), type.
#[unsafe(no_mangle)]
pub extern "C" fn film_decode_sap(s: &[u8], out: &mut [u64; 2]) -> u32
    ensures { Returns (within s.now (decode_sap s.now)) sap_numbers out.old out.new result }
{
    film_entries::film_decode_sap(s, out)
}

// out: point count, maximum, minimum, priority.
#[unsafe(no_mangle)]
pub extern "C" fn film_decode_rash(s: &[u8], out: &mut [u64; 4]) -> u32
    ensures { Returns (within s.now (decode_rash s.now)) rash_numbers out.old out.new result }
{
    film_entries::film_decode_rash(s, out)
}

// out: roll count, first output sample, piece count.
#[unsafe(no_mangle)]
pub extern "C" fn film_decode_alst(s: &[u8], out: &mut [u64; 3]) -> u32
    ensures { Returns (within s.now (decode_alst s.now)) alst_numbers out.old out.new result }
{
    film_entries::film_decode_alst(s, out)
}

// out: bitrate and share of point k, counted from 0.
#[unsafe(no_mangle)]
pub extern "C" fn film_rash_operation_point(s: &[u8], k: u32, out: &mut [u64; 2]) -> u32
    ensures { Returns (within s.now (rash_point s.now k)) point_numbers out.old out.new result }
{
    film_entries::film_rash_operation_point(s, k, out)
}

// points: bitrate and share of each point, in front of the lent run. out: point count.
#[unsafe(no_mangle)]
pub extern "C" fn film_rash_operation_points(
    s: &[u8],
    points: &mut [u32],
    out: &mut [u64; 1],
) -> u32
    ensures { FillsRecords (within s.now (rash_points s.now points.old)) (λ p. p.bitrate) (λ p. p.share) points.old points.new out.old out.new result }
{
    film_entries::film_rash_operation_points(s, points, out)
}

// out: sample offset k, counted from 0.
#[unsafe(no_mangle)]
pub extern "C" fn film_alst_sample_offset(s: &[u8], k: u32, out: &mut [u64; 1]) -> u32
    ensures { Returns (within s.now (alst_offset s.now k)) one_number out.old out.new result }
{
    film_entries::film_alst_sample_offset(s, k, out)
}

// out: output and total samples of piece k, counted from 0.
#[unsafe(no_mangle)]
pub extern "C" fn film_alst_piece(s: &[u8], k: u32, out: &mut [u64; 2]) -> u32
    ensures { Returns (within s.now (alst_pair s.now k)) pair_numbers out.old out.new result }
{
    film_entries::film_alst_piece(s, k, out)
}
