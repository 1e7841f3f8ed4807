// Stored answers for sample tables, lookups, all entries or points at once, and sync and dependency tables: whether the library gives the answer that a record has.
#![tactic(auto)]

// The record has this status and, with 0, the table's head, of so many bytes, and then its rows.
fn same_table(
    record: &[u8],
    status: u32,
    head: &[u64],
    size: usize,
    count: u64,
    rows: &[u32],
) -> bool {
    if test_vector_lines::same_status(record, status) {
        if status != 0 {
            return true;
        }
        let seen = test_vector_lines::numbers(record);
        if test_vector_lines::same_numbers(test_vector_lines::front(seen, size), head) {
            return same_rows(test_vector_lines::rest(seen, size), rows, count);
        }
    }
    false
}

// The byte at a place of the first `size`; 0 behind them.
fn byte_of(output: &[u8], size: u64, k: usize) -> u8 {
    if size <= k as u64 {
        return 0;
    }
    if output.len() <= k {
        return 0;
    }
    output[k]
}

// The bytes are the first `size` of the output, filled up with zeros to whole numbers.
pub fn same_bytes(seen: &[u8], output: &[u8], size: u64) -> bool {
    let n = seen.len() as u64;
    if n < size {
        return false;
    }
    if 8 <= n - size {
        return false;
    }
    for k in 0..seen.len() {
        if seen[k] != byte_of(output, size, k) {
            return false;
        }
    }
    true
}

// The bytes are those of the first `count` rows.
pub fn same_rows(seen: &[u8], rows: &[u32], count: u64) -> bool {
    let n = seen.len() / 8;
    if rows.len() < n {
        return false;
    }
    if n % 2 != 0 {
        return false;
    }
    if (n / 2) as u64 != count {
        return false;
    }
    for k in 0..n {
        if base_fields::read_u64(seen, 8 * k) != rows[k] as u64 {
            return false;
        }
    }
    true
}

// A run of rows has at most 128 numbers here; the record's argument says how many are lent.
fn table(record: &[u8]) -> bool {
    let mut space = [0u32; 128];
    let room = test_vector_lines::argument(record, 0);
    if 128 < room {
        return false;
    }
    parsed(record, &mut space[..room as usize])
}

fn parsed(record: &[u8], rows: &mut [u32]) -> bool {
    if 34 < test_vector_lines::entry(record) {
        return filled(record, rows);
    }
    let mut out = [0u64; 3];
    let status = parse(record, rows, &mut out);
    same_table(record, status, &[out[0], out[1], out[2]], 24, out[2], rows)
}

// All entries, or all points: their number, and two numbers of each.
fn filled(record: &[u8], run: &mut [u32]) -> bool {
    let mut out = [0u64; 1];
    let status = fill(record, run, &mut out);
    same_table(record, status, &[out[0]], 8, out[0], run)
}

fn fill(record: &[u8], run: &mut [u32], out: &mut [u64; 1]) -> u32 {
    if test_vector_lines::entry(record) == 35 {
        film_descriptions::film_entry_places(test_vector_lines::input(record), run, out)
    } else {
        film_entries::film_rash_operation_points(test_vector_lines::input(record), run, out)
    }
}

fn parse(record: &[u8], rows: &mut [u32], out: &mut [u64; 3]) -> u32 {
    if test_vector_lines::entry(record) == 5 {
        film_tables::film_parse_sbgp(test_vector_lines::input(record), rows, out)
    } else {
        film_tables::film_parse_csgp(test_vector_lines::input(record), rows, out)
    }
}

// The bytes as numbers of a run.
pub fn load(s: &[u8], rows: &mut [u32]) {
    for k in 0..rows.len().min(s.len() / 4) {
        rows[k] = base_fields::read_u32(s, 4 * k);
    }
}

// The first n numbers, or all.
pub fn front(rows: &[u32], n: usize) -> &[u32] {
    if rows.len() < n {
        return rows;
    }
    &rows[0..n]
}

// The record's input is a run of rows.
fn lookup(record: &[u8]) -> bool {
    let s = test_vector_lines::input(record);
    let mut space = [0u32; 128];
    load(s, &mut space);
    let mut out = [0u64; 1];
    let status = film_tables::film_group_index_for_sample(
        front(&space, s.len() / 4),
        test_vector_lines::argument_u32(record, 0),
        &mut out,
    );
    test_vector_lines::agrees(record, status, &[out[0]])
}

fn covered(record: &[u8]) -> bool {
    let s = test_vector_lines::input(record);
    let mut space = [0u32; 128];
    load(s, &mut space);
    let mut out = [0u64; 1];
    let status = film_tables::film_covered_samples(front(&space, s.len() / 4), &mut out);
    test_vector_lines::agrees(record, status, &[out[0]])
}

// The number of rows that the record's input needs.
fn needed(record: &[u8]) -> bool {
    let mut out = [0u64; 1];
    let status = count_rows(record, &mut out);
    test_vector_lines::agrees(record, status, &[out[0]])
}

fn count_rows(record: &[u8], out: &mut [u64; 1]) -> u32 {
    if test_vector_lines::entry(record) == 21 {
        film_tables::film_sbgp_rows_needed(test_vector_lines::input(record), out)
    } else {
        film_tables::film_csgp_rows_needed(test_vector_lines::input(record), out)
    }
}

// Sync samples: the record's input is an stss.
fn sync(record: &[u8]) -> bool {
    let mut out = [0u64; 1];
    let status = find_sync(record, &mut out);
    test_vector_lines::agrees(record, status, &[out[0]])
}

fn find_sync(record: &[u8], out: &mut [u64; 1]) -> u32 {
    let s = test_vector_lines::input(record);
    let sample = test_vector_lines::argument_u32(record, 0);
    if test_vector_lines::entry(record) == 32 {
        film_sync::film_is_sync_sample(s, sample, out)
    } else {
        film_sync::film_last_sync_sample(s, sample, out)
    }
}

// The record's input is an sdtp.
fn dependency(record: &[u8]) -> bool {
    let mut out = [0u64; 4];
    let status = film_sync::film_sample_dependency(
        test_vector_lines::input(record),
        test_vector_lines::argument_u32(record, 0),
        &mut out,
    );
    test_vector_lines::agrees(record, status, &[out[0], out[1], out[2], out[3]])
}

// The entry that the record names, by its number in docs/VECTORS.md.
pub fn agrees(record: &[u8]) -> bool {
    match test_vector_lines::entry(record) {
        5 => table(record),
        6 => table(record),
        7 => lookup(record),
        8 => covered(record),
        21 => needed(record),
        22 => needed(record),
        32 => sync(record),
        33 => sync(record),
        34 => dependency(record),
        35 => table(record),
        36 => table(record),
        _ => false,
    }
}
