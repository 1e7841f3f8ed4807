// Stored answers of the Rust for headers, children and bodies: whether the library gives the answer that a record has.
#![tactic(auto)]

fn header(record: &[u8]) -> bool {
    let mut out = [0u64; 5];
    let status = film_atoms::film_read_atom_header(
        test_vector_lines::input(record),
        test_vector_lines::argument(record, 0),
        &mut out,
    );
    test_vector_lines::agrees(record, status, &[out[0], out[1], out[2], out[3], out[4]])
}

fn child(record: &[u8]) -> bool {
    let mut out = [0u64; 6];
    let status = film_atoms::film_next_child(
        test_vector_lines::input(record),
        test_vector_lines::argument(record, 0),
        test_vector_lines::argument_u32(record, 1),
        test_vector_lines::argument(record, 2),
        &mut out,
    );
    test_vector_lines::agrees(
        record,
        status,
        &[out[0], out[1], out[2], out[3], out[4], out[5]],
    )
}

fn payload(record: &[u8]) -> bool {
    let mut out = [0u64; 2];
    let status = film_atoms::film_read_payload(
        test_vector_lines::input(record),
        test_vector_lines::argument(record, 0),
        &mut out,
    );
    test_vector_lines::agrees(record, status, &[out[0], out[1]])
}

fn bounded(record: &[u8]) -> bool {
    let mut out = [0u64; 2];
    let status = film_atoms::film_read_payload_bounded(
        test_vector_lines::input(record),
        test_vector_lines::argument(record, 0),
        test_vector_lines::argument(record, 1),
        &mut out,
    );
    test_vector_lines::agrees(record, status, &[out[0], out[1]])
}

// The entry that the record names, by its number in docs/VECTORS.md.
pub fn agrees(record: &[u8]) -> bool {
    match test_vector_lines::entry(record) {
        1 => header(record),
        2 => child(record),
        3 => payload(record),
        4 => bounded(record),
        _ => false,
    }
}
