//! A disk over a real file, and one over a file in memory whose calls fail or move too few bytes.
use block_device::{Disk, Failed, PathText};
use disk_file::{BlockFile, FileDisk, Flaw, MemFile, open};
use std::fs;
use std::fs::{File, OpenOptions};
use std::process::Abort;
use std::rt::Files;
use std::test::Fail;

const FOLDER: &str = "disk_file_test";

const VOLUME: &str = "disk_file_test/volume";

const LONG_VOLUME: &str = "disk_file_test_3/volume";

// Writes each of 64 blocks full of its number.
fn numbers_each<F: BlockFile>(rt: &impl Abort, disk: &mut FileDisk<F>) {
    assert_eq!(rt; (disk.blocks(), disk.calls()), (64, 0));
    for number in 0..64u8 {
        if u32::from(number) < disk.blocks() {
            assert_eq!(rt; disk.write(u32::from(number), &[number; 4096]), Ok(()));
        }
    }
    assert_eq!(rt; (disk.faults(), disk.calls()), (0, 64));
}

// Finds each of 64 blocks full of its number.
fn finds_each<F: BlockFile>(rt: &impl Abort, disk: &mut FileDisk<F>) {
    assert_eq!(rt; (disk.blocks(), disk.calls()), (64, 0));
    for number in 0..64u8 {
        let mut page = [255u8; 4096];
        if u32::from(number) < disk.blocks() {
            assert_eq!(rt; disk.read(u32::from(number), &mut page), Ok(()));
        }
        assert!(rt; page.iter().all(|byte| *byte == number));
    }
    assert_eq!(rt; (disk.faults(), disk.calls()), (0, 64));
}

// The disk over the file at a path, which is there.
fn opened<R: Abort + Files<File = File>>(rt: &R, path: &PathText) -> FileDisk<File> {
    let mut faults = 0;
    let Ok(disk) = open(rt, path, &mut faults) else {
        panic!(rt; "the file is there")
    };
    disk
}

#[test]
fn each_block_is_read_where_it_was_written_by_a_second_opening(
    rt: HostRuntime,
) -> Result<(), Fail> {
    let _ = fs::remove_dir_all(&rt, FOLDER);
    fs::create_dir(&rt, FOLDER)?;
    fs::write(
        &rt,
        VOLUME,
        vec![in rt.alloc(); 255u8; 64 * 4096 + 5]?.as_slice(),
    )?;
    let path = PathText::new(rt.alloc(), VOLUME.as_bytes())?;
    numbers_each(&rt, &mut opened(&rt, &path));
    finds_each(&rt, &mut opened(&rt, &path));
    let bytes = fs::read(&rt, VOLUME)?;
    assert_eq!(rt; bytes.len(), 64 * 4096 + 5, "as long as before");
    for (at, byte) in bytes.iter().enumerate() {
        let number = if at < 64 * 4096 { at / 4096 } else { 255 };
        assert_eq!(rt; usize::from(*byte), number);
    }
    fs::remove_dir_all(&rt, FOLDER)?;
    Ok(())
}

// Block 2^20 begins at 4 GiB, and the last one ends at 5 GiB. Nothing is written but these two.
#[test]
fn blocks_of_a_file_of_5_gigabytes_lie_apart(rt: HostRuntime) -> Result<(), Fail> {
    let folder = "disk_file_test_3";
    let _ = fs::remove_dir_all(&rt, folder);
    fs::create_dir(&rt, folder)?;
    fs::write(&rt, LONG_VOLUME, b"".as_slice())?;
    let mut options = OpenOptions::new();
    options.write(true);
    options.open(&rt, LONG_VOLUME)?.set_len(5 << 30)?;
    let path = PathText::new(rt.alloc(), LONG_VOLUME.as_bytes())?;
    let last = (5 << 18) - 1;
    for (block, byte) in [(1 << 20, 4), (last, 5)] {
        let mut disk = opened(&rt, &path);
        assert_eq!(rt; disk.blocks(), 5 << 18);
        if block < disk.blocks() {
            assert_eq!(rt; disk.write(block, &[byte; 4096]), Ok(()));
        }
    }
    for (block, byte) in [
        (0, 0),
        ((1 << 20) - 1, 0),
        (1 << 20, 4),
        (last - 1, 0),
        (last, 5),
    ] {
        let mut disk = opened(&rt, &path);
        let mut page = [255u8; 4096];
        if block < disk.blocks() {
            assert_eq!(rt; disk.read(block, &mut page), Ok(()));
        }
        assert!(rt; page.iter().all(|it| *it == byte));
    }
    fs::remove_dir_all(&rt, folder)?;
    Ok(())
}

#[test]
fn a_file_without_a_whole_block_has_none_and_what_is_no_file_is_a_counted_failure(
    rt: HostRuntime,
) -> Result<(), Fail> {
    let folder = "disk_file_test_2";
    let _ = fs::remove_dir_all(&rt, folder);
    fs::create_dir(&rt, folder)?;
    fs::write(
        &rt,
        "disk_file_test_2/short",
        vec![in rt.alloc(); 7u8; 4095]?.as_slice(),
    )?;
    let mut faults = 0;
    let path = PathText::new(rt.alloc(), b"disk_file_test_2/short")?;
    match open(&rt, &path, &mut faults) {
        Ok(disk) => assert_eq!(rt; (disk.blocks(), faults), (0, 0)),
        Err(_) => assert!(rt; false, "a file of 4095 bytes is a disk without blocks"),
    }
    for (count, name) in [
        (1, b"disk_file_test_2/missing".as_slice()),
        (2, b"disk_file_test_2".as_slice()),
        (3, b"disk_file_test_2/short\0".as_slice()),
        (4, b"disk_file_test_2/\xff".as_slice()),
        (5, b"".as_slice()),
    ] {
        let path = PathText::new(rt.alloc(), name)?;
        assert!(rt; open(&rt, &path, &mut faults).is_err());
        assert_eq!(rt; faults, count);
    }
    assert!(rt;
        fs::metadata(&rt, "disk_file_test_2/missing").is_err(),
        "nothing was made"
    );
    fs::remove_dir_all(&rt, folder)?;
    Ok(())
}

#[test]
fn each_block_of_a_file_in_memory_is_read_where_it_was_written(
    rt: HostRuntime,
) -> Result<(), Fail> {
    let alloc = rt.alloc();
    let file = MemFile::new(vec![in alloc; 255u8; 64 * 4096 + 5]?, Vec::new(alloc));
    let Some(mut disk) = FileDisk::over(file, 64 * 4096 + 5) else {
        return Err(Fail::new("64 blocks"));
    };
    numbers_each(&rt, &mut disk);
    let file = disk.into_file();
    for (at, byte) in file.bytes().iter().enumerate() {
        let number = if at < 64 * 4096 { at / 4096 } else { 255 };
        assert_eq!(rt; usize::from(*byte), number);
    }
    let size = file.bytes().len() as u64;
    let Some(mut disk) = FileDisk::over(file, size) else {
        return Err(Fail::new("64 blocks"));
    };
    finds_each(&rt, &mut disk);
    Ok(())
}

// Of each block a read and then a write: the first goes well, the second moves too little, the third fails.
#[test]
fn a_transfer_that_moves_too_little_or_fails_is_a_counted_failure(
    rt: HostRuntime,
) -> Result<(), Fail> {
    let alloc = rt.alloc();
    let mut flaws = vec![in alloc; None; 2]?;
    for flaw in [
        Flaw::Short(4095),
        Flaw::Short(4095),
        Flaw::Fails(0),
        Flaw::Fails(2048),
    ] {
        flaws.push(Some(flaw))?;
    }
    let file = MemFile::new(vec![in alloc; 7u8; 3 * 4096]?, flaws);
    let Some(mut disk) = FileDisk::over(file, 3 * 4096) else {
        return Err(Fail::new("three blocks"));
    };
    let mut page = [0u8; 4096];
    for (block, wanted, calls) in [
        (0, Ok(()), 2),
        (1, Err(Failed), 4),
        (2, Err(Failed), 6),
        (0, Ok(()), 8),
    ] {
        if block < disk.blocks() {
            assert_eq!(rt; disk.read(block, &mut page), wanted);
            assert_eq!(rt; disk.write(block, &[9; 4096]), wanted);
        }
        assert_eq!(rt; disk.calls(), calls);
    }
    assert_eq!(rt; disk.faults(), 4);
    let file = disk.into_file();
    for (at, byte) in file.bytes().iter().enumerate() {
        let is_written = at < 4096 + 4095 || 2 * 4096 <= at && at < 2 * 4096 + 2048;
        assert_eq!(rt; *byte, if is_written { 9 } else { 7 });
    }
    Ok(())
}
