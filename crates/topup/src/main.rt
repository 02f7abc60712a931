// Document 01's program: the object of standard input, loaded, patched and listed.
#![tactic(auto)]

fn main() {
    let mut file = [0u8; program::FILE_ROOM];
    let n = io::read_full(0, &mut file);
    program::top_up(le::part(&file, 0, n));
}
