// Reads the text of a deterministic Büchi automaton from the file TEXT and writes the packed sheet of its family to the
// file SHEET, or prints the refusal.
#![tactic(auto)]

fn main(rt: HostRuntime) {
    conversion::run(
        &rt,
        conversion::Way::Import,
        b"usage: import TEXT SHEET
reads: TEXT, the text of a drawn automaton, a deterministic Buechi automaton
makes: SHEET, the packed sheet of its family; or prints the refusal and makes nothing
example: import drawn.txt drawn.sheet
",
    );
}
