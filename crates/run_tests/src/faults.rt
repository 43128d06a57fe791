// Runs over the square in which calls of the outside fail.

use crate::cases::{BOTH, MESH};
use crate::texts::{DRAWN_MATRIX, SQUARE_MATRIX, SQUARE_SIDE};

// The numbers of the calls that are to fail, counted from 1; 0 where none is.
#[derive(Clone, Copy)]
pub(crate) struct Failing {
    pub(crate) read: u64,
    pub(crate) write: u64,
    pub(crate) put: u64,
    pub(crate) diagnostic: u64,
}

pub(crate) const NO_FAULT: Failing = Failing {
    read: 0,
    write: 0,
    put: 0,
    diagnostic: 0,
};

// A run over the square with a source of 1 in which calls fail, and what stands afterwards: the status, what standard output
// and the diagnostics took, the texts under the names `m` and `r`, and how many calls the store and standard output had.
#[derive(Clone, Copy)]
pub(crate) struct Faulty {
    pub(crate) words: &'static str,
    pub(crate) failing: Failing,
    pub(crate) status: u8,
    pub(crate) out: &'static str,
    pub(crate) line: &'static str,
    pub(crate) matrix: Option<&'static str>,
    pub(crate) right_side: Option<&'static str>,
    pub(crate) calls: u64,
    pub(crate) puts: u64,
}

// A run that is refused before it reads; other runs that write nothing take their rest from it.
const NOTHING: Faulty = Faulty {
    words: "--mesh mesh --fast",
    failing: NO_FAULT,
    status: 2,
    out: "",
    line: "assemble: 2 Words\n",
    matrix: None,
    right_side: None,
    calls: 0,
    puts: 0,
};

// A run that writes the matrix of the square.
const WELL: Faulty = Faulty {
    words: BOTH,
    failing: NO_FAULT,
    status: 0,
    out: SQUARE_MATRIX,
    line: "",
    matrix: None,
    right_side: None,
    calls: 2,
    puts: 1,
};

const NAMED: &str = "--mesh mesh --problem problem --matrix m --rhs r";

// Runs in which calls fail.
pub(crate) const FAULTY: [Faulty; 16] = [
    Faulty {
        words: MESH,
        failing: Failing {
            read: 1,
            ..NO_FAULT
        },
        status: 10,
        line: "assemble: 10 ReadFault mesh\n",
        calls: 1,
        ..NOTHING
    },
    Faulty {
        words: MESH,
        failing: Failing {
            read: 2,
            ..NO_FAULT
        },
        calls: 1,
        ..WELL
    },
    Faulty {
        words: BOTH,
        failing: Failing {
            read: 2,
            ..NO_FAULT
        },
        status: 10,
        line: "assemble: 10 ReadFault problem\n",
        calls: 2,
        ..NOTHING
    },
    Faulty {
        failing: Failing {
            read: 3,
            ..NO_FAULT
        },
        ..WELL
    },
    Faulty {
        words: "--mesh empty --problem problem",
        failing: Failing {
            read: 2,
            ..NO_FAULT
        },
        status: 3,
        line: "assemble: 3 MeshText line 1 TooFew\n",
        calls: 1,
        ..NOTHING
    },
    Faulty {
        words: "--generate 1",
        failing: Failing {
            read: 1,
            ..NO_FAULT
        },
        out: DRAWN_MATRIX,
        calls: 0,
        ..WELL
    },
    Faulty {
        failing: Failing {
            read: 1,
            ..NO_FAULT
        },
        ..NOTHING
    },
    Faulty {
        failing: Failing {
            diagnostic: 1,
            ..NO_FAULT
        },
        line: "",
        ..NOTHING
    },
    Faulty {
        words: BOTH,
        failing: Failing {
            put: 1,
            diagnostic: 1,
            ..NO_FAULT
        },
        status: 11,
        line: "",
        calls: 2,
        puts: 1,
        ..NOTHING
    },
    Faulty {
        failing: Failing {
            write: 1,
            put: 2,
            diagnostic: 1,
            ..NO_FAULT
        },
        ..WELL
    },
    Faulty {
        words: NAMED,
        failing: Failing {
            write: 1,
            ..NO_FAULT
        },
        status: 11,
        line: "assemble: 11 WriteFault matrix\n",
        calls: 3,
        ..NOTHING
    },
    Faulty {
        words: NAMED,
        failing: Failing {
            write: 2,
            ..NO_FAULT
        },
        status: 11,
        line: "assemble: 11 WriteFault rhs\n",
        matrix: Some(SQUARE_MATRIX),
        calls: 4,
        ..NOTHING
    },
    Faulty {
        words: NAMED,
        failing: Failing {
            write: 3,
            put: 1,
            ..NO_FAULT
        },
        out: "",
        matrix: Some(SQUARE_MATRIX),
        right_side: Some(SQUARE_SIDE),
        calls: 4,
        puts: 0,
        ..WELL
    },
    Faulty {
        words: "--mesh mesh --problem problem --matrix m --rhs -",
        failing: Failing { put: 1, ..NO_FAULT },
        status: 11,
        line: "assemble: 11 WriteFault rhs\n",
        matrix: Some(SQUARE_MATRIX),
        calls: 3,
        puts: 1,
        ..NOTHING
    },
    Faulty {
        words: "--mesh mesh --problem problem --rhs r",
        failing: Failing {
            write: 1,
            ..NO_FAULT
        },
        status: 11,
        out: SQUARE_MATRIX,
        line: "assemble: 11 WriteFault rhs\n",
        calls: 3,
        puts: 1,
        ..NOTHING
    },
    Faulty {
        words: "--mesh mesh --problem problem --rhs r",
        failing: Failing { put: 1, ..NO_FAULT },
        status: 11,
        line: "assemble: 11 WriteFault matrix\n",
        calls: 2,
        puts: 1,
        ..NOTHING
    },
];
