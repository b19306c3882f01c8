//! Files of the formats 1 to 5, as earlier versions of this program wrote them.
use crate::files::Files;
use crate::visits::{Told, Visit};
use std::alloc::Global;
use std::test::Fail;

/// The scripts of the journals of the formats 1 to 5.
pub const SCRIPTS: &[(&str, &str)] = &[
    (
        "sum",
        "(let ((a (string->number (extract-binding/single 'n (send/suspend (lambda (u) (list 'a (list (list 'href u)) \"1\")))))) (b (string->number (extract-binding/single 'n (send/suspend (lambda (u) (list 'a (list (list 'href u)) \"2\"))))))) (list 'p (number->string (+ a b))))",
    ),
    (
        "hotel",
        "(define picked (make-web-cell \"none\"))\n(let ((b (send/suspend (lambda (u) `(a ((href ,u)) \"list\")))))\n  (web-cell-shadow picked (extract-binding/single 'h b))\n  (send/suspend (lambda (u) `(a ((href ,u)) \"confirm\")))\n  `(p ,(web-cell-ref picked)))",
    ),
    (
        "shop",
        "(define stock (make-instance-cell 1))\n(begin\n  (send/suspend (lambda (u) `(a ((href ,u)) \"buy\")))\n  (if (< (instance-cell-ref stock) 1)\n      '(p \"sold out\")\n      (begin (instance-cell-add! stock -1) '(p \"bought\"))))",
    ),
    (
        "pay",
        "(define charged (make-instance-cell 0))\n(begin\n  (send/suspend (lambda (u) `(a ((href ,u)) \"cart\")))\n  (isolate\n    (begin\n      (send/suspend (lambda (u) `(a ((href ,u)) \"card\")))\n      (send/suspend (lambda (u) `(a ((href ,u)) \"pay\")))\n      (instance-cell-add! charged 1)))\n  (send/suspend (lambda (u)\n    `(a ((href ,u)) ,(number->string (instance-cell-ref charged)))))\n  '(p \"end\"))",
    ),
    (
        "fin",
        "(begin\n  (send/suspend (lambda (u) `(a ((href ,u)) \"1\")))\n  (send/finish '(p \"bye\")))",
    ),
];

/// What the pages of the journals of the formats 1 to 5 go on with that their visits showed.
pub const ANSWERS: &[Visit] = &[
    Visit {
        path: "/servlets/sum;0*0*1*0000000000000001",
        answer: "((n \"4\"))",
        told: Told::Last("<p>7</p>"),
    },
    Visit {
        path: "/servlets/hotel;0*3*4*0000000000000004",
        answer: "()",
        told: Told::Last("<p>A</p>"),
    },
    Visit {
        path: "/servlets/hotel;0*3*5*0000000000000005",
        answer: "()",
        told: Told::Last("<p>B</p>"),
    },
    Visit {
        path: "/servlets/shop;0*6*6*0000000000000006",
        answer: "()",
        told: Told::Last("<p>sold out</p>"),
    },
    Visit {
        path: "/servlets/fin;0*8*8*0000000000000008",
        answer: "()",
        told: Told::Unknown,
    },
    Visit {
        path: "/servlets/pay;0*10*12*000000000000000c",
        answer: "()",
        told: Told::Closed,
    },
    Visit {
        path: "/servlets/pay;0*10*13*000000000000000d",
        answer: "()",
        told: Told::Last("<p>end</p>"),
    },
];

// A length as files tell it.
fn length_of(length: usize) -> Result<[u8; 4], Fail> {
    match u32::try_from(length) {
        Ok(length) => Ok(length.to_le_bytes()),
        Err(_) => Err(Fail::from("a long text")),
    }
}

// Puts a record after others, and its open gate in front of it.
fn push_record(file: &mut Vec<u8>, body: &[u8]) -> Result<(), Fail> {
    file.push(1)?;
    file.extend_from_slice(&length_of(body.len())?)?;
    file.extend_from_slice(body)?;
    Ok(())
}

// Puts a byte string after its length.
fn push_text(body: &mut Vec<u8>, text: &str) -> Result<(), Fail> {
    body.extend_from_slice(&length_of(text.len())?)?;
    body.extend_from_slice(text.as_bytes())?;
    Ok(())
}

// The first record, which tells the shelf 0 and these scripts.
fn first_record(alloc: Global, scripts: &[(&str, &str)]) -> Result<Vec<u8>, Fail> {
    let mut body = vec![in alloc; 1u8; 1]?;
    body.extend_from_slice(&0u32.to_le_bytes())?;
    body.extend_from_slice(&length_of(scripts.len())?)?;
    for (name, text) in scripts {
        push_text(&mut body, name)?;
        push_text(&mut body, text)?;
    }
    Ok(body)
}

// Puts records after others.
fn push_records(file: &mut Vec<u8>, records: &[&[u8]]) -> Result<(), Fail> {
    for record in records {
        push_record(file, record)?;
    }
    Ok(())
}

/// The file of this format that tells these scripts for the shelf 0, with these records after the first one.
pub fn file_of(
    alloc: Global,
    format: u8,
    scripts: &[(&str, &str)],
    parts: &[&[&[u8]]],
) -> Result<Vec<u8>, Fail> {
    let mut file = b"KSWEB\0\0".to_vec(alloc)?;
    file.push(format)?;
    push_record(&mut file, &first_record(alloc, scripts)?)?;
    for records in parts {
        push_records(&mut file, records)?;
    }
    file.push(0)?;
    Ok(file)
}

/// Three disks, of which the first has this file; the others are empty.
pub fn files_with(alloc: Global, a: Vec<u8>) -> Files {
    Files {
        a,
        b: Vec::new(alloc),
        root: Vec::new(alloc),
    }
}
