// A record from the values of its parts, and the values of a record's parts: the two functions that have a case for each record. Each is long
// because of that.
// Relies on nothing but the types; specs/Records.antt says what each gives.
ghost use Rattle.std.specs.Prelude.{◌≡◌};
ghost use Rattle.fields.specs.Records.{field_of, numbers_of};

use crate::Field;

// The record of the type at place `at` of the table, from the values of its parts, the first of which, the type code, is passed over. The type is
// told by its place, as `field_of` of specs/Records.antt has it.
#[tactic(auto, using(crate::proofs::Rows::field_at_last), unfolding(crate::specs::Records::field_at))]
pub fn field_at(at: usize, v: [u64; 11]) -> Field
    ensures { result ≡ field_of at v }
{
    let [_, a, b, c, d, e, f, g, h, i, j] = v;
    match at {
        0 => Field::TacticalUplink {
            address: a,
            number: b,
            priority: c,
            exp: d,
            text: e,
        },
        1 => Field::ElmUplink {
            address: a,
            number: b,
            priority: c,
            exp: d,
            length: f,
        },
        2 => Field::DownlinkRequest {
            address: a,
            number: b,
            priority: c,
            exp: d,
            msrc: e,
        },
        3 => Field::IdRequest {
            address: a,
            number: b,
        },
        4 => Field::CapabilityRequest {
            address: a,
            number: b,
        },
        5 => Field::Cancellation {
            address: a,
            number: b,
            referenced: c,
            kind: d,
        },
        6 => Field::Test { pattern: a },
        7 => Field::AltimeterCorrection { n: b },
        8 => Field::AtcFailure { state: a },
        9 => Field::SensorFailure { sid: a, sstat: c },
        10 => Field::DabsControlState {
            ip: a,
            is: b,
            iu: c,
        },
        11 => Field::AtcrbsControlState { ica: a, iua: b },
        12 => Field::RejectionNotice {
            address: a,
            referenced: b,
            qual: c,
        },
        13 => Field::DeliveryNotice {
            address: a,
            referenced: b,
            di: c,
        },
        14 => Field::TacticalDownlink {
            address: a,
            text: b,
        },
        15 => Field::ElmDownlink {
            address: a,
            length: c,
        },
        16 => Field::Utility { address: a, um: c },
        17 => Field::Capability {
            address: a,
            ca: b,
            aca: c,
            eca: d,
        },
        18 => Field::IdCode {
            address: a,
            code: c,
        },
        19 => Field::TestResponse { pattern: a },
        _ => Field::ControllerAlert {
            acid1: a,
            acid2: b,
            cs1: c,
            advisory1: d,
            del1: e,
            cs2: f,
            advisory2: g,
            del2: h,
            v1: i,
            v2: j,
        },
    }
}

// The values of a record's parts, the type code first, zero for the spares and the parts of no bits.
pub fn numbers(f: Field) -> [u64; 11]
    ensures { result ≡ numbers_of f }
{
    match f {
        Field::TacticalUplink {
            address,
            number,
            priority,
            exp,
            text,
        } => [0x21, address, number, priority, exp, text, 0, 0, 0, 0, 0],
        Field::ElmUplink {
            address,
            number,
            priority,
            exp,
            length,
        } => [0x22, address, number, priority, exp, 0, length, 0, 0, 0, 0],
        Field::DownlinkRequest {
            address,
            number,
            priority,
            exp,
            msrc,
        } => [0x23, address, number, priority, exp, msrc, 0, 0, 0, 0, 0],
        Field::IdRequest { address, number } => [0x24, address, number, 0, 0, 0, 0, 0, 0, 0, 0],
        Field::CapabilityRequest { address, number } => [
            0x02, address, number, 0, 0, 0, 0, 0, 0, 0, 0,
        ],
        Field::Cancellation {
            address,
            number,
            referenced,
            kind,
        } => [0x25, address, number, referenced, kind, 0, 0, 0, 0, 0, 0],
        Field::Test { pattern } => [0x61, pattern, 0, 0, 0, 0, 0, 0, 0, 0, 0],
        Field::AltimeterCorrection { n } => [0x9B, 0, n, 0, 0, 0, 0, 0, 0, 0, 0],
        Field::AtcFailure { state } => [0x99, state, 0, 0, 0, 0, 0, 0, 0, 0, 0],
        Field::SensorFailure { sid, sstat } => [0x65, sid, 0, sstat, 0, 0, 0, 0, 0, 0, 0],
        Field::DabsControlState { ip, is, iu } => [0x9A, ip, is, iu, 0, 0, 0, 0, 0, 0, 0],
        Field::AtcrbsControlState { ica, iua } => [0x96, ica, iua, 0, 0, 0, 0, 0, 0, 0, 0],
        Field::RejectionNotice {
            address,
            referenced,
            qual,
        } => [0x31, address, referenced, qual, 0, 0, 0, 0, 0, 0, 0],
        Field::DeliveryNotice {
            address,
            referenced,
            di,
        } => [0x32, address, referenced, di, 0, 0, 0, 0, 0, 0, 0],
        Field::TacticalDownlink { address, text } => [0x41, address, text, 0, 0, 0, 0, 0, 0, 0, 0],
        Field::ElmDownlink { address, length } => [0x42, address, 0, length, 0, 0, 0, 0, 0, 0, 0],
        Field::Utility { address, um } => [0x43, address, 0, um, 0, 0, 0, 0, 0, 0, 0],
        Field::Capability {
            address,
            ca,
            aca,
            eca,
        } => [0x44, address, ca, aca, eca, 0, 0, 0, 0, 0, 0],
        Field::IdCode { address, code } => [0x45, address, 0, code, 0, 0, 0, 0, 0, 0, 0],
        Field::TestResponse { pattern } => [0x62, pattern, 0, 0, 0, 0, 0, 0, 0, 0, 0],
        Field::ControllerAlert {
            acid1,
            acid2,
            cs1,
            advisory1,
            del1,
            cs2,
            advisory2,
            del2,
            v1,
            v2,
        } => [
            0x83, acid1, acid2, cs1, advisory1, del1, cs2, advisory2, del2, v1, v2,
        ],
    }
}
