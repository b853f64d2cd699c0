// Lists to lend: what they hold before, and those of 100 records.
use data::{Kind, Listing, Shape, Wire};

// What every record of a list holds before it is read into.
pub const CONTENT: Wire = Wire {
    kind: Kind::Not,
    a: 200,
    b: 3,
    out: true,
};

// The first 100 records.
pub fn few(ws: [Wire; 128]) -> [Wire; 100] {
    let mut list = [CONTENT; 100];
    for (own, x) in list.iter_mut().zip(&ws) {
        *own = *x;
    }
    list
}

// The routine of the other answer: one of more wires than the list has records is none that the list holds, as one of 129 wires.
pub fn held(g: Listing) -> Listing {
    if 100 < g.shape.n {
        return Listing {
            shape: Shape { n: 129, ..g.shape },
            ..g
        };
    }
    g
}
