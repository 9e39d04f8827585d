use super::*;
use std::test::Fail;

#[test]
fn a_request_has_the_bytes_of_the_protocol(rt: HostRuntime) -> Result<(), Fail> {
    let bytes =
        *b"\x25\x60\x95\x13\x00\x01\x00\x01\x00\x00\x00\x00\x00\x00\x00\x07\x00\x00\x00\x00\x00\x00\x10\x00\x00\x00\x02\x00";
    let request = Request {
        flags: 1,
        command: Command::Write,
        handle: 7,
        offset: 4096,
        length: 512,
    };
    assert_eq!(rt; Request::parse(&bytes), Some(request));
    assert_eq!(rt; request.encode(), bytes);
    assert_eq!(rt; Request::parse(&[0; 28]), None);
    Ok(())
}

#[test]
fn a_reply_has_the_bytes_of_the_protocol(rt: HostRuntime) -> Result<(), Fail> {
    let bytes = *b"\x67\x44\x66\x98\x00\x00\x00\x05\x00\x00\x00\x00\x00\x00\x00\x07";
    let reply = ReplyHead {
        error: Errno::InputOutput,
        handle: 7,
    };
    assert_eq!(rt; reply.encode(), bytes);
    assert_eq!(rt; ReplyHead::parse(&bytes), Some(reply));
    assert_eq!(rt; ReplyHead::parse(&[0; 16]), None);
    Ok(())
}

#[test]
fn an_option_has_the_bytes_of_the_protocol(rt: HostRuntime) -> Result<(), Fail> {
    let bytes = *b"IHAVEOPT\x00\x00\x00\x07\x00\x00\x00\x06";
    let option = OptionHead {
        kind: OptionKind::Go,
        length: 6,
    };
    assert_eq!(rt; option.encode(), bytes);
    assert_eq!(rt; OptionHead::parse(&bytes), Some(option));
    assert!(rt; is_choice(b"\x00\x00\x00\x02ab\x00\x01\x00\x03"));
    assert!(rt; !is_choice(b"\x00\x00\x00\x02ab\x00\x01\x00"));
    Ok(())
}

#[test]
fn an_answer_has_the_bytes_of_the_protocol(rt: HostRuntime) -> Result<(), Fail> {
    let bytes =
        *b"\x00\x03\xe8\x89\x04\x55\x65\xa9\x00\x00\x00\x08\x80\x00\x00\x01\x00\x00\x00\x00";
    let answer = AnswerHead {
        kind: OptionKind::Other(8),
        answer: Answer::Unsupported,
        length: 0,
    };
    assert_eq!(rt; answer.encode(), bytes);
    assert_eq!(rt; AnswerHead::parse(&bytes), Some(answer));
    assert_eq!(rt; greeting(), *b"NBDMAGICIHAVEOPT\x00\x03");
    let export = Export {
        size: 4096,
        least: 512,
        best: 512,
        most: 1024,
    };
    assert_eq!(rt;
        export.encode(),
        *b"\x00\x00\x00\x00\x00\x00\x10\x00\x00\x6d"
    );
    assert_eq!(rt;
        export.encode_size(),
        *b"\x00\x00\x00\x00\x00\x00\x00\x00\x10\x00\x00\x6d"
    );
    assert_eq!(rt;
        export.encode_lengths(),
        *b"\x00\x03\x00\x00\x02\x00\x00\x00\x02\x00\x00\x00\x04\x00"
    );
    Ok(())
}
