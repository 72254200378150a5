use super::*;

const NONE: Segment = Segment {
    mode: 0,
    first: 0,
    length: 0,
};

fn segment(mode: u8, first: u32, length: u32) -> Option<Segment> {
    Some(Segment {
        mode,
        first,
        length,
    })
}

// Modes 0 0 1 1 1 2, with room for one segment at a time.
#[test]
fn stops_at_a_full_queue(rt: HostRuntime) {
    let mut waiting = [0u8; 6];
    let mut modes = Queue::new(&mut waiting);
    for mode in [0, 0, 1, 1, 1, 2] {
        let _ = modes.put(mode);
    }
    let mut closed = [NONE; 1];
    let mut segments = Queue::new(&mut closed);
    let mut segmenter = Segmenter::new();
    assert_eq!(rt; segmenter.advance(&mut modes, &mut segments), 5);
    assert_eq!(rt; segments.take(), segment(0, 1, 2));
    assert_eq!(rt; segmenter.advance(&mut modes, &mut segments), 1);
    assert_eq!(rt; segmenter.end(&mut segments), Err(Fault::QueueFull));
    assert_eq!(rt; segments.take(), segment(1, 3, 3));
    assert_eq!(rt; segmenter.end(&mut segments), Ok(()));
    assert_eq!(rt; segments.take(), segment(2, 6, 1));
}
