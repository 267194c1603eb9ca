// Reads the text of a sheet from the file TEXT, and writes the packed sheet to the file SHEET and its seconds to the
// file SECONDS, or prints the refusal.
#![tactic(auto)]

fn main(rt: HostRuntime) {
    conversion::run(
        &rt,
        conversion::Way::Pack,
        b"usage: pack TEXT SHEET [SECONDS]
reads: TEXT, the text of a sheet, of level three or four
makes: SHEET, the packed sheet, and SECONDS, the seconds of its scenes (empty at level three); or prints the refusal and makes nothing
example: pack revised.txt revised.sheet
",
    );
}
