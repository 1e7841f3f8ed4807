// Stored answers of the Rust for descriptions and typed entries: whether the library gives the answer that a record has.
#![tactic(auto)]

fn sgpd(record: &[u8]) -> bool {
    let mut out = [0u64; 5];
    let status = film_descriptions::film_parse_sgpd(test_vector_lines::input(record), &mut out);
    test_vector_lines::agrees(record, status, &[out[0], out[1], out[2], out[3], out[4]])
}

fn place(record: &[u8]) -> bool {
    let mut out = [0u64; 2];
    let status = film_descriptions::film_entry_place(
        test_vector_lines::input(record),
        test_vector_lines::argument_u32(record, 0),
        &mut out,
    );
    test_vector_lines::agrees(record, status, &[out[0], out[1]])
}

// A distance is stored as its 64 bits: whether the upper 48 of them are not those of a signed number of 16 bits.
fn upper_differs(record: &[u8]) -> bool {
    let seen = test_vector_lines::numbers(record);
    if seen.len() != 8 {
        return true;
    }
    let upper = base_fields::read_u64(seen, 0) / 65536;
    if base_fields::read_u16(seen, 6) < 32768 {
        return upper != 0;
    }
    upper != 281474976710655
}

fn same_distance(record: &[u8], status: u32, distance: i64) -> bool {
    if test_vector_lines::same_status(record, status) {
        if status != 0 {
            return true;
        }
        let seen = test_vector_lines::numbers(record);
        if seen.len() != 8 {
            return false;
        }
        let stored = group_entries::signed_u16(base_fields::read_u16(seen, 6));
        return stored as i64 == distance;
    }
    false
}

fn same_roll(record: &[u8], status: u32, distance: i64) -> bool {
    if status == 0 {
        if upper_differs(record) {
            return false;
        }
    }
    same_distance(record, status, distance)
}

fn roll(record: &[u8]) -> bool {
    let mut out = [0i64; 1];
    let status = film_entries::film_decode_roll(test_vector_lines::input(record), &mut out);
    same_roll(record, status, out[0])
}

fn prol(record: &[u8]) -> bool {
    let mut out = [0i64; 1];
    let status = film_entries::film_decode_prol(test_vector_lines::input(record), &mut out);
    same_roll(record, status, out[0])
}

fn rap(record: &[u8]) -> bool {
    let mut out = [0u64; 2];
    let status = film_entries::film_decode_rap(test_vector_lines::input(record), &mut out);
    test_vector_lines::agrees(record, status, &[out[0], out[1]])
}

fn tele(record: &[u8]) -> bool {
    let mut out = [0u64; 1];
    let status = film_entries::film_decode_tele(test_vector_lines::input(record), &mut out);
    test_vector_lines::agrees(record, status, &[out[0]])
}

fn sap(record: &[u8]) -> bool {
    let mut out = [0u64; 2];
    let status = film_entries::film_decode_sap(test_vector_lines::input(record), &mut out);
    test_vector_lines::agrees(record, status, &[out[0], out[1]])
}

fn rash(record: &[u8]) -> bool {
    let mut out = [0u64; 4];
    let status = film_entries::film_decode_rash(test_vector_lines::input(record), &mut out);
    test_vector_lines::agrees(record, status, &[out[0], out[1], out[2], out[3]])
}

fn alst(record: &[u8]) -> bool {
    let mut out = [0u64; 3];
    let status = film_entries::film_decode_alst(test_vector_lines::input(record), &mut out);
    test_vector_lines::agrees(record, status, &[out[0], out[1], out[2]])
}

fn point(record: &[u8]) -> bool {
    let mut out = [0u64; 2];
    let status = film_entries::film_rash_operation_point(
        test_vector_lines::input(record),
        test_vector_lines::argument_u32(record, 0),
        &mut out,
    );
    test_vector_lines::agrees(record, status, &[out[0], out[1]])
}

fn offset(record: &[u8]) -> bool {
    let mut out = [0u64; 1];
    let status = film_entries::film_alst_sample_offset(
        test_vector_lines::input(record),
        test_vector_lines::argument_u32(record, 0),
        &mut out,
    );
    test_vector_lines::agrees(record, status, &[out[0]])
}

fn piece(record: &[u8]) -> bool {
    let mut out = [0u64; 2];
    let status = film_entries::film_alst_piece(
        test_vector_lines::input(record),
        test_vector_lines::argument_u32(record, 0),
        &mut out,
    );
    test_vector_lines::agrees(record, status, &[out[0], out[1]])
}

// The entry that the record names, by its number in docs/VECTORS.md.
pub fn agrees(record: &[u8]) -> bool {
    match test_vector_lines::entry(record) {
        9 => sgpd(record),
        10 => place(record),
        11 => roll(record),
        12 => prol(record),
        13 => rap(record),
        14 => tele(record),
        15 => sap(record),
        16 => rash(record),
        17 => point(record),
        18 => alst(record),
        19 => offset(record),
        20 => piece(record),
        _ => false,
    }
}
