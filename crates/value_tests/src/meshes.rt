//! Mesh texts of Gmsh: the mesh that each says, written as UCD, or its first fault.
use crate::texts::fault_text;
use msh_read::read_msh;
use std::alloc::Global;
use ucd_write::ucd_text;

// Whole texts.
const WHOLE: [(&str, &str); 14] = [
    (
        "$MeshFormat\n2.2 0 8\n$EndMeshFormat\n$PhysicalNames\n1\n2 1 \"body\"\n$EndPhysicalNames\n$Nodes\n4\n1 0 0 0\n2 1 0 0\n3 1 1 0\n4 0 1 0\n$EndNodes\n$Elements\n3\n1 15 2 0 1 1\n2 1 2 7 1 1 2\n3 3 2 1 1 1 2 3 4\n$EndElements\n",
        "4 2 0 0 0\n1 0.0000000000000000 0.0000000000000000 0\n2 1.0000000000000000 0.0000000000000000 0\n3 1.0000000000000000 1.0000000000000000 0\n4 0.0000000000000000 1.0000000000000000 0\n1 1 quad 1 2 3 4\n2 7 line 1 2\n",
    ),
    (
        "\r\n$A\r\n$MeshFormat\r\n$EndA x\n$MeshFormat more words\n2.2 0 08\n$EndMeshFormat\n$\n$End\n\n$Nodes\n2\n70 0.5 0 1e9\n9 1 -2 0\n$EndNodes and more\n$B\n$EndB\n$Elements\n3\n1 01 0 70 9\n1 15 00001 5 9\n2 3 6 4 5 6 7 8 9 70 9 70 9\n$EndElements\nanything\n",
        "2 2 0 0 0\n70 0.5000000000000000 0.0000000000000000 0\n9 1.0000000000000000 -2.0000000000000000 0\n1 4 quad 70 9 70 9\n2 0 line 70 9\n",
    ),
    (
        "$MeshFormat\n2.2 0 8\n$EndMeshFormat\n$Nodes\n4\n1 0 0 0\n20 1.5 -0.0000152587890625 0\n3 1024 -1024 0\n4 -0.3 1 0\n$EndNodes\n$Elements\n2\n9 1 1 1 1 20\n8 3 1 5 1 20 3 4\n$EndElements\n",
        "4 2 0 0 0\n1 0.0000000000000000 0.0000000000000000 0\n20 1.5000000000000000 -0.0000152587890625 0\n3 1024.0000000000000000 -1024.0000000000000000 0\n4 -0.3000030517578125 1.0000000000000000 0\n1 5 quad 1 20 3 4\n2 1 line 1 20\n",
    ),
    (
        "$MeshFormat\n2.2 0 8\n$EndMeshFormat\n$PhysicalNames\n1\n2 1 \"body\"\n$EndPhysicalNames\n$Nodes\n4\n1 0 0 0\n2 1 0 0\n3 1 1 0\n4 0 1 0\n$EndNodes\n$Elements\n3\n1 15 2 0 1 1\n2 2 2 7 1 1 2 3\n3 3 2 1 1 1 2 3 4\n$EndElements\n",
        "UnsupportedType 18",
    ),
    ("", "TooFew 1"),
    ("2.2 0 8\n", "Section 1"),
    ("$Nodes\n", "Section 1"),
    ("$EndNodes\n", "Section 1"),
    ("$ x\n1\n$End\n$MeshFormat\n4.1 0 8\n", "Format 5"),
    ("$MeshFormat\n$EndMeshFormat\n", "Format 2"),
    ("$MeshFormat\n4.1 0 8\n", "Format 2"),
    ("$MeshFormat\n2.2 1 8\n", "Format 2"),
    ("$MeshFormat\n2.2 0 8\n$Nodes\n", "Section 3"),
    ("$MeshFormat\n", "TooFew 2"),
];

// Texts behind the format.
const FORMAT: &str = "$MeshFormat\n2.2 0 8\n$EndMeshFormat\n";

const BEHIND_FORMAT: [(&str, &str); 12] = [
    ("$MeshFormat\n2.2 0 8\n$EndMeshFormat\n", "Section 4"),
    ("", "TooFew 4"),
    ("$Other\n1\n$EndNodes\n", "TooFew 7"),
    ("$Nodes\nx\n", "Section 5"),
    ("$Nodes\n1 2\n", "Section 5"),
    ("$Nodes\n1\n1 0 0 0\n2 1 0 0\n", "Section 7"),
    ("$Nodes\n2\n1 0 0 0\n", "TooFew 7"),
    ("$Nodes\n1\n1 0 0\n", "NodeLine 6"),
    ("$Nodes\n1\n1 x 0 0\n", "Number 6"),
    ("$Nodes\n1\n1 0 0 z\n", "Number 6"),
    ("$Nodes\n2\n1 0 0 0\n01 1 0 0\n", "DuplicateId 7"),
    ("$Nodes\n1048577\n", "Limit 5"),
];

// Texts behind the format and two nodes.
const NODES: &str =
    "$MeshFormat\n2.2 0 8\n$EndMeshFormat\n$Nodes\n2\n1 0 0 0\n2 1 0 0\n$EndNodes\n";

const BEHIND_NODES: [(&str, &str); 15] = [
    ("$Nodes\n", "Section 9"),
    ("$Elements\n1\n1 15 0 1\n1 15 0 1\n", "Section 12"),
    ("$Elements\n1\n1 15 0 1\n", "TooFew 12"),
    ("$Elements\n2097153\n", "Limit 10"),
    ("$Elements\n1\n1 1\n$EndElements\n", "ElementLine 11"),
    ("$Elements\n1\n1 1 -1 1 2\n$EndElements\n", "ElementLine 11"),
    (
        "$Elements\n1\n1 2 0 1 2 3\n$EndElements\n",
        "UnsupportedType 11",
    ),
    ("$Elements\n1\n1 2 9\n$EndElements\n", "UnsupportedType 11"),
    (
        "$Elements\n1\n1 1 2 7 1 1\n$EndElements\n",
        "ElementLine 11",
    ),
    (
        "$Elements\n1\n1 1 2 7 1 1 2 2\n$EndElements\n",
        "ElementLine 11",
    ),
    (
        "$Elements\n1\n1 1 3 7 1 -1 1 2\n$EndElements\n",
        "ElementLine 11",
    ),
    ("$Elements\n1\n1 1 0 1 x\n$EndElements\n", "ElementLine 11"),
    ("$Elements\n1\n1 1 0 1 3\n$EndElements\n", "UnknownNode 11"),
    ("$Elements\n1\n1 15 0 3\n$EndElements\n", "UnknownNode 11"),
    (
        "$Elements\n1\n1 1 4294967295 1 2\n$EndElements\n",
        "ElementLine 11",
    ),
];

// What a text says.
fn outcome(alloc: Global, text: &str) -> Option<Vec<u8>> {
    if text.len() > 4000 {
        return None;
    }
    match read_msh(alloc, text.as_bytes()) {
        Ok(mesh) => ucd_text(alloc, &mesh).ok(),
        Err(fault) => fault_text(alloc, &fault)?.as_bytes().to_vec(alloc).ok(),
    }
}

// Whether lines behind others say this.
fn says(alloc: Global, front: &str, lines: &str, expected: &str) -> Option<bool> {
    let text = format!(in alloc; "{front}{lines}").ok()?;
    let told = outcome(alloc, text.as_str())?;
    Some(told.as_slice() == expected.as_bytes())
}

#[test]
fn mesh_texts_of_gmsh_are_read(rt: HostRuntime) {
    for (text, expected) in WHOLE {
        assert_eq!(rt; says(rt.alloc(), "", text, expected), Some(true), "{text}");
    }
    for (text, expected) in BEHIND_FORMAT {
        assert_eq!(rt;
            says(rt.alloc(), FORMAT, text, expected),
            Some(true),
            "{text}"
        );
    }
    for (text, expected) in BEHIND_NODES {
        assert_eq!(rt;
            says(rt.alloc(), NODES, text, expected),
            Some(true),
            "{text}"
        );
    }
}
