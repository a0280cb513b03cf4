// The tables that an export works with: corners, positions, textures and normals by reference, points and pairs by their bits.
#[derive(Drop)]
pub struct Tables<Ct, Pt, Tt, Nt, Qt, Rt> {
    pub corners: Ct,
    pub positions: Pt,
    pub textures: Tt,
    pub normals: Nt,
    pub points: Qt,
    pub pairs: Rt,
}
