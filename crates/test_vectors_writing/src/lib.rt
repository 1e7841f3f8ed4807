// Stored answers for tables that are quoted and written: whether the library gives the answer that a record has. The record's input is a run of rows.
#![tactic(auto)]

// What stands in an output before the call.
const BEFORE: u8 = 165;

// The bytes from a place on are as they were before the call.
fn kept(body: &[u8], from: usize) -> bool {
    for k in from..body.len() {
        if body[k] != BEFORE {
            return false;
        }
    }
    true
}

fn quote(record: &[u8], rows: &[u32], out: &mut [u64; 1]) -> u32 {
    if test_vector_lines::entry(record) == 28 {
        film_writing::film_quote_sbgp(rows, out)
    } else {
        film_writing::film_quote_csgp(rows, out)
    }
}

fn quoted(record: &[u8]) -> bool {
    let s = test_vector_lines::input(record);
    let mut space = [0u32; 128];
    test_vectors_tables::load(s, &mut space);
    let mut out = [0u64; 1];
    let status = quote(
        record,
        test_vectors_tables::front(&space, s.len() / 4),
        &mut out,
    );
    test_vector_lines::agrees(record, status, &[out[0]])
}

fn write(record: &[u8], rows: &[u32], body: &mut [u8], out: &mut [u64; 1]) -> u32 {
    let grouping_type = test_vector_lines::argument_u32(record, 0);
    let length = test_vector_lines::argument(record, 1) as usize;
    if test_vector_lines::entry(record) == 30 {
        film_writing::film_write_sbgp(grouping_type, rows, length, body, out)
    } else {
        film_writing::film_write_csgp(grouping_type, rows, length, body, out)
    }
}

// The record has this status and, with 0, the length and the bytes in front of the output. What stands behind them, or with another status all of it, is as before.
fn same_body(record: &[u8], status: u32, length: u64, body: &[u8]) -> bool {
    if test_vector_lines::same_status(record, status) {
        if status != 0 {
            return kept(body, 0);
        }
        let seen = test_vector_lines::numbers(record);
        if test_vector_lines::same_numbers(test_vector_lines::front(seen, 8), &[length]) {
            if kept(body, length as usize) {
                return test_vectors_tables::same_bytes(
                    test_vector_lines::rest(seen, 8),
                    body,
                    length,
                );
            }
        }
    }
    false
}

fn written(record: &[u8], body: &mut [u8]) -> bool {
    let s = test_vector_lines::input(record);
    let mut space = [0u32; 128];
    test_vectors_tables::load(s, &mut space);
    let mut out = [0u64; 1];
    let status = write(
        record,
        test_vectors_tables::front(&space, s.len() / 4),
        body,
        &mut out,
    );
    same_body(record, status, out[0], body)
}

// The arguments are the type, the quoted length and the bytes lent (at most 256 here).
fn table(record: &[u8]) -> bool {
    let mut body = [BEFORE; 256];
    let bytes = test_vector_lines::argument(record, 2);
    if 256 < bytes {
        return false;
    }
    written(record, &mut body[..bytes as usize])
}

// The entry that the record names, by its number in docs/VECTORS.md.
pub fn agrees(record: &[u8]) -> bool {
    match test_vector_lines::entry(record) {
        28 => quoted(record),
        29 => quoted(record),
        30 => table(record),
        31 => table(record),
        _ => false,
    }
}
