// Stored answers for the stbl of a track, cue listings and decode starts: whether the library gives the answer that a record has.
#![tactic(auto)]

// The record's numbers are the two lengths, then the rows, then the listing's bytes, eight to a number.
fn same_numbers(seen: &[u8], size: u64, count: u64, rows: &[u32], listing: &[u8]) -> bool {
    if 64 < count {
        return false;
    }
    if test_vector_lines::same_numbers(test_vector_lines::front(seen, 16), &[size, count]) {
        let behind = test_vector_lines::rest(seen, 16);
        let end = 16 * (count as usize);
        if test_vectors_tables::same_rows(test_vector_lines::front(behind, end), rows, count) {
            return test_vectors_tables::same_bytes(
                test_vector_lines::rest(behind, end),
                listing,
                size,
            );
        }
    }
    false
}

fn list(record: &[u8], rows: &mut [u32], listing: &mut [u8], out: &mut [u64; 2]) -> u32 {
    if test_vector_lines::entry(record) == 23 {
        film_listing::film_cue_listing(
            test_vector_lines::input(record),
            test_vector_lines::argument_u32(record, 0),
            rows,
            listing,
            out,
        )
    } else {
        film_listing::film_file_cue_listing(
            test_vector_lines::input(record),
            test_vector_lines::argument_u32(record, 0),
            test_vector_lines::argument_u32(record, 1),
            rows,
            listing,
            out,
        )
    }
}

fn listed(record: &[u8], rows: &mut [u32], listing: &mut [u8]) -> bool {
    let mut out = [0u64; 2];
    let status = list(record, rows, listing, &mut out);
    if test_vector_lines::same_status(record, status) {
        if status != 0 {
            return true;
        }
        return same_numbers(
            test_vector_lines::numbers(record),
            out[0],
            out[1],
            rows,
            listing,
        );
    }
    false
}

// The numbers lent for rows are at most 128 here, and the bytes lent for the listing at most 256.
fn cue(record: &[u8], numbers: u64, bytes: u64) -> bool {
    let mut rows = [0u32; 128];
    let mut listing = [0u8; 256];
    if 128 < numbers {
        return false;
    }
    if 256 < bytes {
        return false;
    }
    listed(
        record,
        &mut rows[..numbers as usize],
        &mut listing[..bytes as usize],
    )
}

fn stbl(record: &[u8]) -> bool {
    let mut out = [0u64; 2];
    let status = film_listing::film_find_stbl(
        test_vector_lines::input(record),
        test_vector_lines::argument_u32(record, 0),
        &mut out,
    );
    test_vector_lines::agrees(record, status, &[out[0], out[1]])
}

// The sample where decoding begins for the frame that the record's argument names.
fn start(record: &[u8]) -> bool {
    let mut out = [0u64; 1];
    let status = find_start(record, &mut out);
    test_vector_lines::agrees(record, status, &[out[0]])
}

fn find_start(record: &[u8], out: &mut [u64; 1]) -> u32 {
    let s = test_vector_lines::input(record);
    let frame = test_vector_lines::argument_u32(record, 0);
    if test_vector_lines::entry(record) == 26 {
        film_starts::film_roll_start(s, frame, out)
    } else {
        film_starts::film_rap_start(s, frame, out)
    }
}

// The entry that the record names, by its number in docs/VECTORS.md. Of a film the first argument is the track.
pub fn agrees(record: &[u8]) -> bool {
    match test_vector_lines::entry(record) {
        23 => cue(
            record,
            test_vector_lines::argument(record, 1),
            test_vector_lines::argument(record, 2),
        ),
        24 => stbl(record),
        25 => cue(
            record,
            test_vector_lines::argument(record, 2),
            test_vector_lines::argument(record, 3),
        ),
        26 => start(record),
        27 => start(record),
        _ => false,
    }
}
