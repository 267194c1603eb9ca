// Reads a packed sheet from the file SHEET and its seconds from the file SECONDS, and writes the text to the file TEXT,
// or prints the refusal.
#![tactic(auto)]

fn main(rt: HostRuntime) {
    conversion::run(
        &rt,
        conversion::Way::Unpack,
        b"usage: unpack SHEET TEXT [SECONDS]
reads: SHEET, a packed sheet, and SECONDS, the seconds of its scenes
makes: TEXT, the text of the sheet, of level four where SECONDS is named, else of level three; or prints the refusal and makes nothing
example: unpack revised.sheet revised.txt
",
    );
}
