// What is read of a source.
use crate::bytes::read_words;
use std::io;
use std::io::{ErrorKind, Read};
use std::test::Fail;

// Gives its messages, so many bytes each, and then fails or ends. What a read has no room for is lost.
#[derive(Drop)]
struct Messages {
    count: usize,
    len: usize,
    failure: Option<ErrorKind>,
}

impl Read for Messages {
    fn read(&mut self, buf: &mut [u8]) -> io::Result<usize> {
        if self.count == 0 {
            return match self.failure {
                Some(kind) => Err(io::Error::new(kind, "no message")),
                None => Ok(0),
            };
        }
        self.count -= 1;
        let given = self.len.min(buf.len());
        buf[..given].fill(1);
        Ok(given)
    }
}

#[test]
fn words_of_a_source(rt: HostRuntime) -> Result<(), Fail> {
    let source = b"\x05\x02\x01\x10\x01\x00\x00\x20\xff";
    let words = read_words(rt.alloc(), source.as_slice())?;
    assert!(rt; words.as_slice() == [0x1001_0205, 0x2000_0001].as_slice());
    Ok(())
}

#[test]
fn no_more_words_than_are_looked_at(rt: HostRuntime) -> Result<(), Fail> {
    let source = vec![in rt.alloc(); 1u8; 65_541]?;
    let words = read_words(rt.alloc(), source.as_slice())?;
    assert_eq!(rt; words.len(), 16_384);
    assert_eq!(rt; words.last(), Some(&0x0101_0101));
    Ok(())
}

#[test]
fn messages_are_taken_whole(rt: HostRuntime) -> Result<(), Fail> {
    for (count, len, words) in [(1, 60_000, 15_000), (2, 600, 300), (2, 40_000, 16_384)] {
        let source = Messages {
            count,
            len,
            failure: None,
        };
        assert_eq!(rt; read_words(rt.alloc(), source)?.len(), words);
    }
    Ok(())
}

#[test]
fn an_interrupted_read_is_an_error(rt: HostRuntime) {
    let failure = Some(ErrorKind::Interrupted);
    let source = Messages {
        count: 1,
        len: 600,
        failure,
    };
    assert!(rt; read_words(rt.alloc(), source).is_err_and(|e| e.kind() == ErrorKind::Interrupted));
}
