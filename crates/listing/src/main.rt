// Reads a configuration on standard input and prints its listing.
#![tactic(auto)]

// The first 2,048 bytes decide, and the buffer holds more. Where the listing cannot be written, that is not told.
fn main(rt: HostRuntime) {
    let mut text = [0u8; 4096];
    let n = reading::fill(&mut rt.stdin(), &mut text);
    let mut room = [0u8; 128];
    let length = configuration_listing::listing(&text[..n], &mut room);
    let _ = rt.write_all(&room[..length]);
}
