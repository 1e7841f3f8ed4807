// Tables read into row structs, beside the same tables in flat rows, and the readers and writers of row structs.
use super::tell;
use base_fields::refusal::Refusal;
use base_ids::{DescriptionIndex, SampleNumber};
use std::io;
use table_row_structs::SampleToGroupEntry;
use table_rows::SampleToGroup;
use test_struct_runs::TableRead;

// Both are refused so; or, where nothing is to be refused, both are tables of the same type with as many rows.
fn same_answer(
    a: Result<SampleToGroup, Refusal>,
    b: Result<SampleToGroup, Refusal>,
    refusal: Option<Refusal>,
) -> bool {
    match a {
        Ok(x) => match b {
            Ok(y) => {
                refusal.is_none()
                    && x.grouping_type == y.grouping_type
                    && x.grouping_type_parameter == y.grouping_type_parameter
                    && x.entry_count == y.entry_count
            }
            Err(_) => false,
        },
        Err(first) => match b {
            Ok(_) => false,
            Err(second) => refusal == Some(first) && refusal == Some(second),
        },
    }
}

// Four rows, all sevens, so that what is written and what stays can be seen.
fn sevens() -> [SampleToGroupEntry; 4] {
    [SampleToGroupEntry {
        sample_count: 7,
        group_description_index: 7,
    }; 4]
}

// The numbers of four rows.
fn numbers_of(rows: [SampleToGroupEntry; 4]) -> [u32; 8] {
    [
        rows[0].sample_count,
        rows[0].group_description_index,
        rows[1].sample_count,
        rows[1].group_description_index,
        rows[2].sample_count,
        rows[2].group_description_index,
        rows[3].sample_count,
        rows[3].group_description_index,
    ]
}

fn same_numbers(a: &[u32; 8], b: &[u32; 8]) -> bool {
    for k in 0..8 {
        if a[k] != b[k] {
            return false;
        }
    }
    true
}

// A table in row structs has the answer and the rows that it has in flat rows; the answer is a table, or this refusal.
fn same_read(
    read: TableRead,
    answer: Result<SampleToGroup, Refusal>,
    flat: &[u32; 8],
    refusal: Option<Refusal>,
) -> bool {
    let told = read.answer;
    let rows = read.rows;
    let numbers = numbers_of(rows);
    if same_numbers(&numbers, flat) {
        return same_answer(told, answer, refusal);
    }
    false
}

fn sbgp_agrees(s: &[u8], refusal: Option<Refusal>) -> bool {
    let mut flat = [7u32; 8];
    let answer = table_sbgp::parse_sbgp(s, &mut flat);
    same_read(
        test_struct_runs::sbgp_over(s, sevens()),
        answer,
        &flat,
        refusal,
    )
}

fn csgp_agrees(s: &[u8], refusal: Option<Refusal>) -> bool {
    let mut flat = [7u32; 8];
    let answer = table_csgp::parse_csgp(s, &mut flat);
    same_read(
        test_struct_runs::csgp_over(s, sevens()),
        answer,
        &flat,
        refusal,
    )
}

// The rows of eight numbers.
fn rows_of(numbers: [u32; 8]) -> [SampleToGroupEntry; 4] {
    [
        SampleToGroupEntry {
            sample_count: numbers[0],
            group_description_index: numbers[1],
        },
        SampleToGroupEntry {
            sample_count: numbers[2],
            group_description_index: numbers[3],
        },
        SampleToGroupEntry {
            sample_count: numbers[4],
            group_description_index: numbers[5],
        },
        SampleToGroupEntry {
            sample_count: numbers[6],
            group_description_index: numbers[7],
        },
    ]
}

fn same_index(a: Result<DescriptionIndex, Refusal>, b: Result<DescriptionIndex, Refusal>) -> bool {
    match a {
        Ok(i) => match b {
            Ok(j) => i.0 == j.0,
            Err(_) => false,
        },
        Err(_) => false,
    }
}

fn same_sum(a: Result<u64, Refusal>, b: Result<u64, Refusal>) -> bool {
    match a {
        Ok(n) => match b {
            Ok(m) => n == m,
            Err(_) => false,
        },
        Err(_) => false,
    }
}

// Row k of four, or none past them.
fn is_row(r: Result<Option<SampleToGroupEntry>, Refusal>, numbers: &[u32; 8], k: usize) -> bool {
    match r {
        Ok(Some(row)) => {
            if 4 <= k {
                return false;
            }
            row.sample_count == numbers[2 * k] && row.group_description_index == numbers[2 * k + 1]
        }
        Ok(None) => 4 <= k,
        Err(_) => false,
    }
}

// The readers of row structs answer as those of flat rows do.
fn reads_agree(numbers: [u32; 8], k: usize, sample: u32) -> bool {
    let index = table_rows::group_index_for_sample(&numbers, SampleNumber(sample));
    let covered = table_rows::covered_samples(&numbers);
    let read = test_struct_runs::read_over(rows_of(numbers), k, SampleNumber(sample));
    let row = read.row;
    let read_index = read.index;
    let read_covered = read.covered;
    if is_row(row, &numbers, k) {
        if same_index(read_index, index) {
            return same_sum(read_covered, covered);
        }
    }
    false
}

// The rows written, or 1000 and the refusal.
fn told_written(r: Result<usize, Refusal>) -> u64 {
    match r {
        Ok(n) => n as u64,
        Err(refusal) => 1000 + refusal.number() as u64,
    }
}

// 0 where a row was set, 255 for none.
fn told_set(r: Option<()>) -> u64 {
    match r {
        Some(()) => 0,
        None => 255,
    }
}

// Pairs written over four rows of sevens, and row k set to (5,6), give these answers and rows.
fn writes(pairs: &[u32], k: usize, written: u64, set: u64, after: &[u32; 8]) -> bool {
    let row = SampleToGroupEntry {
        sample_count: 5,
        group_description_index: 6,
    };
    let r = test_struct_runs::write_over(pairs, sevens(), k, row);
    let told = r.written;
    if told_written(told) != written {
        return false;
    }
    let was_set = r.set;
    if told_set(was_set) != set {
        return false;
    }
    let rows = r.rows;
    let numbers = numbers_of(rows);
    same_numbers(&numbers, after)
}

fn run_rows(rt: &impl Print) -> io::Result<()> {
    let numbers = [3u32, 1, 0, 9, 2, 1, 4, 8];
    tell(
        rt,
        "row structs, row 1 and sample 4",
        reads_agree(numbers, 1, 4),
    )?;
    tell(
        rt,
        "row structs, row 3 and sample 8",
        reads_agree(numbers, 3, 8),
    )?;
    tell(rt, "row structs, past the end", reads_agree(numbers, 4, 9))?;
    let two = [1u32, 2, 3, 4];
    tell(
        rt,
        "row structs, two rows written, the last one set",
        writes(&two, 3, 2, 0, &[1, 2, 3, 4, 7, 7, 5, 6]),
    )?;
    let five = [1u32; 10];
    tell(
        rt,
        "row structs, a record too few, no row set",
        writes(&five, 4, 1029, 255, &[7; 8]),
    )
}

fn run_sbgp(rt: &impl Print) -> io::Result<()> {
    let rows =
        b"\x00\x00\x00\x00rap \x00\x00\x00\x02\x00\x00\x00\x03\x00\x00\x00\x01\x00\x00\x00\x02\x00\x00\x00\x09";
    tell(rt, "sbgp in row structs", sbgp_agrees(rows, None))?;
    let cut =
        b"\x00\x00\x00\x00rap \x00\x00\x00\x02\x00\x00\x00\x03\x00\x00\x00\x01\x00\x00\x00\x02\x00\x00\x00";
    tell(
        rt,
        "sbgp in row structs, rows cut",
        sbgp_agrees(cut, Some(Refusal::RowsCut)),
    )?;
    let many =
        b"\x01\x00\x00\x00rap \x00\x00\x00\x09\x00\x00\x00\x05\x00\x00\x00\x01\x00\x00\x00\x01\x00\x00\x00\x01\x00\x00\x00\x01\x00\x00\x00\x01\x00\x00\x00\x01\x00\x00\x00\x01\x00\x00\x00\x01\x00\x00\x00\x01\x00\x00\x00\x01";
    tell(
        rt,
        "sbgp in row structs, a record too few",
        sbgp_agrees(many, Some(Refusal::NoRecordLeft)),
    )
}

fn run_csgp(rt: &impl Print) -> io::Result<()> {
    let joined = b"\x00\x00\x00\x00rap \x00\x00\x00\x02\x12\x23\x55\x60";
    tell(rt, "csgp in row structs", csgp_agrees(joined, None))?;
    let no_index = b"\x00\x00\x00\x00rap \x00\x00\x00\x02\x12\x23";
    tell(
        rt,
        "csgp in row structs, an index cut",
        csgp_agrees(no_index, Some(Refusal::IndexCut)),
    )
}

fn run_csgp_over(rt: &impl Print) -> io::Result<()> {
    let period = b"\x00\x00\x00\x00rap \x00\x00\x00\x01\x37\x12\x20";
    tell(
        rt,
        "csgp in row structs, a record too few",
        csgp_agrees(period, Some(Refusal::NoRecordLeft)),
    )?;
    let over = b"\x00\x00\x00\x0crap \x00\x00\x00\x02\x1f\xff\xff\xff\xf1\x00\x00\x00\x01\x11";
    tell(
        rt,
        "csgp in row structs, a row too long",
        csgp_agrees(over, Some(Refusal::RowCountOver)),
    )
}

pub fn run(rt: &impl Print) -> io::Result<()> {
    run_sbgp(rt)?;
    run_csgp(rt)?;
    run_csgp_over(rt)?;
    run_rows(rt)
}
