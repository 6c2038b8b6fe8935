use std::test::Fail;
use window::limit::WindowLimit;
use window::queue::WindowQueue;

fn limit(k: u32) -> Result<WindowLimit, Fail> {
    WindowLimit::new(k).ok_or_else(|| Fail::new("no limit"))
}

#[test]
fn limits_are_1_to_64(rt: HostRuntime) {
    assert_eq!(rt; WindowLimit::new(0), None);
    assert_eq!(rt; WindowLimit::new(1).map(WindowLimit::k), Some(1));
    assert_eq!(rt; WindowLimit::new(64).map(WindowLimit::k), Some(64));
    assert_eq!(rt; WindowLimit::new(65), None);
}

// Three places of any copyable element, here a letter with a number.
#[test]
fn places_are_filled_and_closed_up(rt: HostRuntime) -> Result<(), Fail> {
    let mut places = [('-', 0); 3];
    let mut queue = WindowQueue::new(&mut places, limit(3)?);
    assert_eq!(rt; queue.append(('a', 1)), Ok(()));
    assert_eq!(rt; queue.append(('b', 2)), Ok(()));
    assert_eq!(rt; queue.append(('c', 3)), Ok(()));
    assert_eq!(rt; queue.append(('d', 4)).map_err(u32::from), Err(17));
    assert_eq!(rt; queue.len(), 3);
    assert_eq!(rt; queue.at(0), None);
    assert_eq!(rt; queue.at(3), Some(('c', 3)));
    assert_eq!(rt; queue.at(4), None);
    assert_eq!(rt; queue.take_at(2), Ok(Some(('b', 2))));
    assert_eq!(rt; queue.len(), 2);
    assert_eq!(rt; queue.at(2), Some(('c', 3)));
    drop(queue);
    assert_eq!(rt; places, [('a', 1), ('c', 3), ('c', 3)]);
    Ok(())
}

#[test]
fn the_window_narrows_and_opens(rt: HostRuntime) -> Result<(), Fail> {
    let mut places = [0u32; 8];
    let mut queue = WindowQueue::new(&mut places, limit(3)?);
    for x in 1..=8 {
        assert_eq!(rt; queue.append(x), Ok(()));
    }
    assert_eq!(rt; queue.take_at(4).map_err(u32::from), Err(18));
    assert_eq!(rt; queue.take_at(3), Ok(Some(3)));
    assert_eq!(rt; queue.window(), 2);
    assert_eq!(rt; queue.take_at(3).map_err(u32::from), Err(18));
    assert_eq!(rt; queue.take_at(2), Ok(Some(2)));
    assert_eq!(rt; queue.window(), 1);
    assert_eq!(rt; queue.take_at(2).map_err(u32::from), Err(18));
    assert_eq!(rt; queue.take_at(0).map_err(u32::from), Err(18));
    assert_eq!(rt; queue.take_at(1), Ok(Some(1)));
    assert_eq!(rt; queue.window(), 3);
    Ok(())
}

#[test]
fn place_0_is_for_an_empty_queue(rt: HostRuntime) -> Result<(), Fail> {
    let mut places = [0u32; 2];
    let mut queue = WindowQueue::new(&mut places, limit(2)?);
    assert_eq!(rt; queue.take_at(1).map_err(u32::from), Err(18));
    assert_eq!(rt; queue.take_at(0), Ok(None));
    assert_eq!(rt; queue.append(5), Ok(()));
    assert_eq!(rt; queue.append(6), Ok(()));
    assert_eq!(rt; queue.take_at(2), Ok(Some(6)));
    assert_eq!(rt; queue.window(), 1);
    assert_eq!(rt; queue.take_at(1), Ok(Some(5)));
    assert_eq!(rt; queue.take_at(0), Ok(None));
    assert_eq!(rt; queue.window(), 2);
    Ok(())
}
