//! The subdomains of materials, and what is wrong with their lines.
use problem_read::{ProblemFault, ProblemKind, read_problem};
use std::alloc::Global;

// The subdomains of four materials, or the first fault of a short text.
fn read_subdomains(alloc: Global, text: &str) -> Option<Result<[u32; 4], ProblemFault>> {
    if text.len() > 1000 {
        return None;
    }
    match read_problem(alloc, text.as_bytes()) {
        Ok(problem) => Some(Ok([
            problem.subdomain(0),
            problem.subdomain(1),
            problem.subdomain(2),
            problem.subdomain(4_294_967_295),
        ])),
        Err(fault) => Some(Err(fault)),
    }
}

#[test]
fn a_material_belongs_to_the_subdomain_of_its_line(rt: HostRuntime) {
    for (text, expected) in [
        ("", [0, 0, 0, 0]),
        ("subdomain 2 5\npenalty 1\n", [0, 0, 5, 0]),
        (
            "subdomain 01 7\ndiffusion 1 2\nsubdomain 0 4294967295\nsubdomain 4294967295 7\n",
            [4_294_967_295, 7, 0, 7],
        ),
    ] {
        assert!(rt;
            read_subdomains(rt.alloc(), text) == Some(Ok(expected)),
            "{text}"
        );
    }
}

#[test]
fn a_wrong_subdomain_line_is_a_fault(rt: HostRuntime) {
    for (text, kind, line) in [
        ("subdomain 1\n", ProblemKind::Word, 1),
        ("subdomain 1 2 3\n", ProblemKind::Word, 1),
        ("subdomain 1 0.5\n", ProblemKind::Number, 1),
        ("subdomain 1 4294967296\n", ProblemKind::Number, 1),
        (
            "subdomain 1 2\nsource 1 2\nsubdomain 01 2\n",
            ProblemKind::Repeated,
            3,
        ),
    ] {
        assert!(rt;
            read_subdomains(rt.alloc(), text) == Some(Err(ProblemFault { kind, line })),
            "{text}"
        );
    }
}
