use cc_list::List;
use std::test::Fail;

#[test]
fn grows_and_shrinks(rt: HostRuntime) -> Result<(), Fail> {
    let mut list: List<u8> = List::new(rt.alloc());
    list.push(2)?;
    list.push(4)?;
    list.insert(0, 1)?;
    list.extend_from_slice(&[5, 6])?;
    list.append(List::from_slice(rt.alloc(), &[7])?)?;
    assert_eq!(rt; list.as_slice(), [1, 2, 4, 5, 6, 7].as_slice());
    assert_eq!(rt; list.pop(), Some(7));
    assert!(rt; list.len() == 5);
    assert_eq!(rt; list.remove(1), 2);
    list.truncate(3);
    assert_eq!(rt; list.into_vec().as_slice(), [1, 4, 5].as_slice());
    Ok(())
}

#[test]
fn reads_and_writes(rt: HostRuntime) -> Result<(), Fail> {
    let mut list = List::from_vec(vec![in rt.alloc(); 3u16, 5]?);
    assert!(rt; list.len() == 2 && !list.is_empty());
    assert_eq!(rt; list.replace(0, 4), 3);
    list.set(1, 6);
    assert_eq!(rt; list.get(0).copied(), Some(4));
    assert_eq!(rt; list.get(2).copied(), None);
    *list.at_mut(0) = 7;
    let copy = list.copy()?;
    assert!(rt; copy == list && list.clone()? == list);
    let line = format!(in rt.alloc(); "{copy:?}")?;
    assert_eq!(rt; line.as_str(), "[7, 6]");
    let mut sum = 0;
    for item in &list {
        sum ^= *item;
    }
    for item in list {
        sum ^= item;
    }
    assert_eq!(rt; sum, 0);
    Ok(())
}
