// Runs pick's code on each folder of data/, in the order of their names. The file stdout has the answers, written by hand
// from the specification; `tests/pick/run` holds the program `pick` to the same answers.
#![tactic(auto)]

use pick_files::run;

// The paths of a folder's two files.
macro_rules! paths {
    ($folder:literal) => {
        (
            concat!($folder, "/prefs.bin"),
            concat!($folder, "/rows.bin"),
        )
    };
}

const CASES: [(&str, &str); 38] = [
    // ---- Tables that are accepted, with every kind of answer.
    // ANY of column 7 over 1,024 equal rows: all are kept.
    paths!("ok_1024_kept"),
    // LOWEST over 1,024 rows that fall from 1,023 to 0: the last beats each other one. 32,768 bytes pass.
    paths!("ok_1024_rows"),
    // LOWEST under 127 DUALs is HIGHEST: of 1 3 3 2 both rows with 3 are kept. 1,536 bytes pass.
    paths!("ok_128_records"),
    // POS with the favourites 1 to 16, over 17 16 1.
    paths!("ok_16_values"),
    // PARETO of LOWEST of each column. Row 1 has the lowest number in column 7, row 2 is lower in column 0.
    paths!("ok_8_columns"),
    // The specification's AROUND 2147483647 over -2147483648 and 0.
    paths!("ok_around_the_end"),
    // The specification's EXPLICIT edges (4,3) (4,2) (3,1) over 3 2 4 6.
    paths!("ok_explicit"),
    // HIGHEST of column 7 over 255, 256, 65536, 16777216 and 2147483647: high byte first, row 1 would be kept.
    paths!("ok_low_byte_first"),
    // BETWEEN 5 and 5 over 5 and 6.
    paths!("ok_low_is_up"),
    // T1 and no file of rows.
    paths!("ok_missing_rows"),
    // T1 and a file of no bytes.
    paths!("ok_no_rows"),
    // The specification's PARETO of POS {2, 3} and NEG {1, 2, 4, 6} over 1 to 6.
    paths!("ok_one_column"),
    // The specification's AROUND PRIOR LOWEST over V, with other numbers in columns 3 to 7, which nothing reads.
    paths!("ok_prior"),
    // The specification's PARETO of two LOWESTs over (1,5) (5,1) (3,3).
    paths!("ok_three_kept"),

    // ---- LENGTH, which comes before what rows.bin brings.
    // 129 records.
    paths!("refused_02_129_records"),
    // A record and a byte.
    paths!("refused_02_13_bytes"),
    // 128 records and a byte.
    paths!("refused_02_1537_bytes"),
    // No bytes, and 31 bytes of rows.
    paths!("refused_02_before_rows"),
    // No bytes.
    paths!("refused_02_empty"),
    // No file.
    paths!("refused_02_missing"),

    // ---- KIND to REUSED, each with its record.
    // Kind 11, and 31 bytes of rows.
    paths!("refused_03_before_rows"),
    // LOWEST, then kind 20.
    paths!("refused_03_kind"),
    // Kind 255 in record 127.
    paths!("refused_03_last"),
    // The specification's AROUND with column 8 and v = 1.
    paths!("refused_04_filler"),
    // LOWEST, then HIGHEST of column 8.
    paths!("refused_05_column"),
    // LOWEST, then PARETO 0 1.
    paths!("refused_06_part"),
    // LOWEST, then PARETO 0 0.
    paths!("refused_07_reused"),

    // ---- STRAY to LOOSE.
    // POS, then a value of role 2.
    paths!("refused_08_stray"),
    // POS and 17 values.
    paths!("refused_09_crowd"),
    // POS/NEG with favourite 5 and disliked 5.
    paths!("refused_10_clash"),
    // EXPLICIT (1,2) (2,1).
    paths!("refused_11_loop"),
    // BETWEEN 6 and 5.
    paths!("refused_12_bounds"),
    // BOTH of LOWEST of column 0 and HIGHEST of column 1.
    paths!("refused_13_apart"),
    // LOWEST and HIGHEST alone.
    paths!("refused_14_loose"),

    // ---- LOWEST, and a rows.bin that is turned down.
    // 1,025 rows.
    paths!("refused_15_1025_rows"),
    // A row but for its last byte.
    paths!("refused_15_31_bytes"),
    // 1,024 rows and a byte.
    paths!("refused_15_32769_bytes"),
    // A row and one number.
    paths!("refused_15_36_bytes"),
];

fn main(rt: HostRuntime) {
    for (prefs, rows) in CASES {
        run(&rt, prefs.as_bytes(), rows.as_bytes());
    }
}
