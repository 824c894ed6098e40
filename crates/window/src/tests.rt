// A window's slots and tallies, as a union uses them.
use crate::window::Window;
use combiner::score_combiner::SumCombiner;

fn put(window: &mut Window, delta: u32) {
    window.insert(delta, &SumCombiner, 1.0);
}

// Whether the next slot is this one, with this sum.
fn gives(window: &mut Window, delta: u32, sum: f32) -> bool {
    match window.next() {
        Some((slot, tally)) => slot == delta && tally.sum == sum,
        None => false,
    }
}

fn is_empty(window: &mut Window) -> bool {
    matches!(window.next(), None)
}

#[test]
fn lowest_first(rt: HostRuntime) {
    let mut window = Window::new();
    assert!(rt; window.len() == 0);
    put(&mut window, 4095);
    put(&mut window, 64);
    put(&mut window, 0);
    put(&mut window, 63);
    put(&mut window, 64);
    assert!(rt; window.len() == 4);
    assert!(rt; gives(&mut window, 0, 1.0));
    assert!(rt; gives(&mut window, 63, 1.0));
    assert!(rt; window.len() == 2);
    assert!(rt; gives(&mut window, 64, 2.0));
    assert!(rt; gives(&mut window, 4095, 1.0));
    assert!(rt; window.len() == 0);
    assert!(rt; is_empty(&mut window));
}

#[test]
fn past_the_last_slot(rt: HostRuntime) {
    let mut window = Window::new();
    put(&mut window, 4096);
    put(&mut window, 4294967295);
    assert!(rt; window.len() == 0);
    assert!(rt; is_empty(&mut window));
}

#[test]
fn behind_what_was_taken(rt: HostRuntime) {
    let mut window = Window::new();
    put(&mut window, 300);
    assert!(rt; gives(&mut window, 300, 1.0));
    put(&mut window, 5);
    put(&mut window, 300);
    assert!(rt; gives(&mut window, 5, 1.0));
    assert!(rt; gives(&mut window, 300, 1.0));
    assert!(rt; is_empty(&mut window));
}

#[test]
fn skip_leaves_no_tally(rt: HostRuntime) {
    let mut window = Window::new();
    put(&mut window, 10);
    put(&mut window, 130);
    put(&mut window, 192);
    window.skip(3);
    assert!(rt; window.len() == 1);
    put(&mut window, 130);
    assert!(rt; gives(&mut window, 130, 1.0));
    assert!(rt; gives(&mut window, 192, 1.0));
    put(&mut window, 4095);
    window.skip(1000);
    assert!(rt; is_empty(&mut window));
    put(&mut window, 4095);
    window.skip(0);
    window.skip(63);
    assert!(rt; gives(&mut window, 4095, 1.0));
}

#[test]
fn drain_across_words(rt: HostRuntime) {
    let mut window = Window::new();
    for i in 0..40 {
        put(&mut window, 3 * i + 1);
    }
    let mut buffer = [7; 64];
    assert!(rt; window.drain(1000, &mut buffer, 0) == 40);
    assert!(rt; buffer[0] == 1001 && buffer[20] == 1061 && buffer[39] == 1118);
    assert!(rt; buffer[40] == 7 && buffer[63] == 7);
    assert!(rt; window.len() == 0);
}

#[test]
fn drain_until_full(rt: HostRuntime) {
    let mut window = Window::new();
    for i in 0..40 {
        put(&mut window, 100 * i);
    }
    let mut buffer = [7; 64];
    assert!(rt; window.drain(2147483647, &mut buffer, 60) == 64);
    assert!(rt; buffer[59] == 7 && buffer[60] == 2147483647 && buffer[63] == 2147483947);
    assert!(rt; window.len() == 36);
    assert!(rt; window.drain(0, &mut buffer, 64) == 64);
    assert!(rt; window.drain(0, &mut buffer, 65) == 65);
    assert!(rt; window.drain(2147483648, &mut buffer, 0) == 0);
    assert!(rt; window.len() == 36 && buffer[0] == 7);
    assert!(rt; gives(&mut window, 400, 1.0));
}
