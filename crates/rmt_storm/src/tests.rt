use crate::scripts::script;
use std::test::Fail;

/// Two turns from the seed 1: an INSERT, and the same again.
const TWO_TURNS: &[u8] = b"\
    REPLICAS 3;\n\
    CREATE TABLE s (k UInt64, v UInt64) ENGINE = ReplicatedMergeTree PARTITION BY intDiv(k, 1000) ORDER BY k SETTINGS index_granularity = 16;\n\
    @r2 INSERT INTO s VALUES (1051,5627),(1010,7419),(1212,4086),(1749,12767);\n\
    @r1 INSERT INTO s VALUES (1051,5627),(1010,7419),(1212,4086),(1749,12767);\n\
    @r1 SELECT count(), sum(v) FROM s SYNC;\n\
    @r2 SELECT count(), sum(v) FROM s SYNC;\n\
    @r3 SELECT count(), sum(v) FROM s SYNC;\n";

/// Forty turns from the seed 388, which have statements of each kind. They were written by another program.
const FORTY_TURNS: &[u8] = b"\
    REPLICAS 3;\n\
    CREATE TABLE s (k UInt64, v UInt64) ENGINE = ReplicatedMergeTree PARTITION BY intDiv(k, 1000) ORDER BY k SETTINGS index_granularity = 16;\n\
    RUN s 20 SEED 6205;\n\
    @r2 SHOW PARTS FROM s;\n\
    @r3 SYSTEM RESTART REPLICA s;\n\
    @r3 ALTER TABLE s DELETE WHERE v < 625;\n\
    @r1 INSERT INTO s VALUES (349,32190),(569,7843),(647,9184),(358,17180);\n\
    @r2 SYSTEM SYNC REPLICA s;\n\
    @r1 INSERT INTO s VALUES (3675,16629),(3708,13896),(3915,5667);\n\
    @r2 SELECT count(), sum(v) FROM s SYNC;\n\
    @r1 INSERT INTO s VALUES (3611,3052),(3377,16672);\n\
    @r2 SYSTEM RESTART REPLICA s;\n\
    @r3 ALTER TABLE s DROP PARTITION 1;\n\
    @r2 WAIT MUTATION s 0;\n\
    @r2 OPTIMIZE TABLE s FINAL;\n\
    @r1 ALTER TABLE s UPDATE v = v + 16 WHERE k < 3241;\n\
    @r2 INSERT INTO s VALUES (2170,8046),(2615,3076),(2285,23914),(2867,11363);\n\
    @r2 SELECT count(), sum(v) FROM s SYNC;\n\
    @r3 INSERT INTO s VALUES (2718,8351),(2616,7403),(2090,27375),(2915,20464);\n\
    @r2 INSERT INTO s VALUES (3791,2606),(3842,5390);\n\
    @r3 ALTER TABLE s DROP PARTITION 3;\n\
    @r3 INSERT INTO s VALUES (2138,14120),(2350,7338),(2246,1643),(2839,19194),(2703,28657),(2274,10822);\n\
    @r3 INSERT INTO s VALUES (534,10873),(639,1840),(500,17886),(815,11592),(437,8869);\n\
    @r2 INSERT INTO s VALUES (534,10873),(639,1840),(500,17886),(815,11592),(437,8869);\n\
    @r1 INSERT INTO s VALUES (1172,354),(1048,228),(1176,30755),(1513,140),(1145,29230),(1799,29943),(1156,9792),(1712,12057);\n\
    @r2 INSERT INTO s VALUES (745,27027),(948,21529),(162,5528),(313,22640);\n\
    @r1 INSERT INTO s VALUES (3467,3434),(3006,12582),(3662,13131),(3383,12802),(3862,7342),(3000,3608),(3431,15462);\n\
    @r3 INSERT INTO s VALUES (1946,25658),(1733,27429),(1929,20250),(1868,8187),(1621,17649),(1562,20127),(1031,28250);\n\
    @r1 INSERT INTO s VALUES (3630,21435),(3217,15092);\n\
    @r3 INSERT INTO s VALUES (3630,21435),(3217,15092);\n\
    @r3 INSERT INTO s VALUES (2126,13544),(2087,12158),(2191,3639);\n\
    @r2 INSERT INTO s VALUES (3260,18725),(3896,1028),(3903,14403),(3234,31933);\n\
    @r2 INSERT INTO s VALUES (3260,18725),(3896,1028),(3903,14403),(3234,31933);\n\
    @r2 INSERT INTO s VALUES (3260,18725),(3896,1028),(3903,14403),(3234,31933);\n\
    @r1 INSERT INTO s VALUES (268,31705),(357,3076),(295,5093);\n\
    @r2 SELECT count() FROM s;\n\
    @r1 INSERT INTO s VALUES (356,3557),(323,16635);\n\
    RUN s 20 SEED 1729;\n\
    @r2 SELECT count(), sum(v) FROM s SYNC;\n\
    @r2 INSERT INTO s VALUES (3314,10055),(3244,31164),(3595,6550),(3322,19128),(3033,4884);\n\
    @r2 INSERT INTO s VALUES (3314,10055),(3244,31164),(3595,6550),(3322,19128),(3033,4884);\n\
    @r1 WAIT MUTATION s 1;\n\
    @r1 OPTIMIZE TABLE s FINAL;\n\
    @r1 INSERT INTO s VALUES (2657,5107),(2323,6879);\n\
    @r1 SELECT count(), sum(v) FROM s SYNC;\n\
    @r2 SELECT count(), sum(v) FROM s SYNC;\n\
    @r3 SELECT count(), sum(v) FROM s SYNC;\n";

/// A script has the statements that its seed draws.
#[test]
fn a_seed_gives_its_script(rt: HostRuntime) -> Result<(), Fail> {
    let two = script(rt.alloc(), 1, 2)?;
    assert_eq!(rt; two.as_slice(), TWO_TURNS);
    let forty = script(rt.alloc(), 388, 40)?;
    assert_eq!(rt; forty.as_slice(), FORTY_TURNS);
    Ok(())
}
