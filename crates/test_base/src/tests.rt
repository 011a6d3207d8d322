mod base;
mod edge;
mod fixed;
mod made;
mod trace;

use base_fixed_point::FixType;

const BOOLEAN: FixType = FixType {
    signed: false,
    bits: 1,
    frac: 0,
};

const INT8: FixType = FixType {
    signed: true,
    bits: 8,
    frac: 0,
};

const INT32: FixType = FixType {
    signed: true,
    bits: 32,
    frac: 0,
};
