//! Sessions with the boot monitor: scripts, and the reports that they give.

/// Uploads the image, and executes it.
pub const UPLOAD: &str = "uart0 expect \"> \"
uart0 send \"u\"
uart0 expect \"UP\\r\\n\"
uart0 image
uart0 expect \"> \"
uart0 send \"e\"
";

/// Bound 1,300.
pub const UPLOADED: &str = "cycles 1300
75 uart0 tx 4e
95 uart0 tx 31
115 uart0 tx 0d
135 uart0 tx 0a
155 uart0 tx 3e
175 uart0 tx 20
307 uart0 tx 55
327 uart0 tx 50
347 uart0 tx 0d
367 uart0 tx 0a
883 uart0 tx 4f
903 uart0 tx 4b
923 uart0 tx 0d
943 uart0 tx 0a
963 uart0 tx 3e
983 uart0 tx 20
1115 uart0 tx 47
1135 uart0 tx 4f
1155 uart0 tx 0d
1175 uart0 tx 0a
boot handover 1216
hart 0 run pc 00000004 retired 15
x1 00000005
mem 00000000 930050006f0000000000000000000000
end
";

/// The last byte of the image is missing.
pub const CUT_SHORT: &str = "cycles 1300
75 uart0 tx 4e
95 uart0 tx 31
115 uart0 tx 0d
135 uart0 tx 0a
155 uart0 tx 3e
175 uart0 tx 20
307 uart0 tx 55
327 uart0 tx 50
347 uart0 tx 0d
367 uart0 tx 0a
boot monitor
hart 0 monitor pc 00000000 retired 0
mem 00000000 93005000000000000000000000000000
end
";

/// After a good upload one without the signature, an unknown command, and execute.
pub const NO_SIGNATURE: &str = "uart0 expect \"> \"
uart0 send \"u\"
uart0 expect \"UP\\r\\n\"
uart0 image
uart0 expect \"> \"
uart0 send \"u\"
uart0 expect \"UP\\r\\n\"
uart0 hex 000000000000000000000000
uart0 expect \"> \"
uart0 send \"x\"
uart0 expect \"> \"
uart0 send \"e\"
";

/// Bound 10,000: what was uploaded before is no longer held.
pub const SIGNATURE_REFUSED: &str = "cycles 10000
75 uart0 tx 4e
95 uart0 tx 31
115 uart0 tx 0d
135 uart0 tx 0a
155 uart0 tx 3e
175 uart0 tx 20
307 uart0 tx 55
327 uart0 tx 50
347 uart0 tx 0d
367 uart0 tx 0a
883 uart0 tx 4f
903 uart0 tx 4b
923 uart0 tx 0d
943 uart0 tx 0a
963 uart0 tx 3e
983 uart0 tx 20
1115 uart0 tx 55
1135 uart0 tx 50
1155 uart0 tx 0d
1175 uart0 tx 0a
1523 uart0 tx 45
1543 uart0 tx 52
1563 uart0 tx 52
1583 uart0 tx 20
1603 uart0 tx 73
1623 uart0 tx 69
1643 uart0 tx 67
1663 uart0 tx 6e
1683 uart0 tx 61
1703 uart0 tx 74
1723 uart0 tx 75
1743 uart0 tx 72
1763 uart0 tx 65
1783 uart0 tx 0d
1803 uart0 tx 0a
1823 uart0 tx 3e
1843 uart0 tx 20
1971 uart0 tx 45
1991 uart0 tx 52
2011 uart0 tx 52
2031 uart0 tx 20
2051 uart0 tx 63
2071 uart0 tx 6f
2091 uart0 tx 6d
2111 uart0 tx 6d
2131 uart0 tx 61
2151 uart0 tx 6e
2171 uart0 tx 64
2191 uart0 tx 0d
2211 uart0 tx 0a
2231 uart0 tx 3e
2251 uart0 tx 20
2379 uart0 tx 45
2399 uart0 tx 52
2419 uart0 tx 52
2439 uart0 tx 20
2459 uart0 tx 6e
2479 uart0 tx 6f
2499 uart0 tx 6e
2519 uart0 tx 65
2539 uart0 tx 0d
2559 uart0 tx 0a
2579 uart0 tx 3e
2599 uart0 tx 20
boot monitor
hart 0 monitor pc 00000000 retired 0
mem 00000000 930050006f0000000000000000000000
end
";

/// After a good upload one with another last byte, execute, one whose length is no multiple of four, and execute.
pub const BAD_SUM_AND_SIZE: &str = "uart0 expect \"> \"
uart0 send \"u\"
uart0 expect \"UP\\r\\n\"
uart0 image
uart0 expect \"> \"
uart0 send \"u\"
uart0 expect \"UP\\r\\n\"
uart0 hex feca884708000000fefeafff930050006f000001
uart0 expect \"> \"
uart0 send \"e\"
uart0 expect \"> \"
uart0 send \"u\"
uart0 expect \"UP\\r\\n\"
uart0 hex feca88470600000000000000
uart0 expect \"> \"
uart0 send \"e\"
";

/// Bound 10,000.
pub const SUM_AND_SIZE_REFUSED: &str = "cycles 10000
75 uart0 tx 4e
95 uart0 tx 31
115 uart0 tx 0d
135 uart0 tx 0a
155 uart0 tx 3e
175 uart0 tx 20
307 uart0 tx 55
327 uart0 tx 50
347 uart0 tx 0d
367 uart0 tx 0a
883 uart0 tx 4f
903 uart0 tx 4b
923 uart0 tx 0d
943 uart0 tx 0a
963 uart0 tx 3e
983 uart0 tx 20
1115 uart0 tx 55
1135 uart0 tx 50
1155 uart0 tx 0d
1175 uart0 tx 0a
1691 uart0 tx 45
1711 uart0 tx 52
1731 uart0 tx 52
1751 uart0 tx 20
1771 uart0 tx 63
1791 uart0 tx 68
1811 uart0 tx 65
1831 uart0 tx 63
1851 uart0 tx 6b
1871 uart0 tx 73
1891 uart0 tx 75
1911 uart0 tx 6d
1931 uart0 tx 0d
1951 uart0 tx 0a
1971 uart0 tx 3e
1991 uart0 tx 20
2123 uart0 tx 45
2143 uart0 tx 52
2163 uart0 tx 52
2183 uart0 tx 20
2203 uart0 tx 6e
2223 uart0 tx 6f
2243 uart0 tx 6e
2263 uart0 tx 65
2283 uart0 tx 0d
2303 uart0 tx 0a
2323 uart0 tx 3e
2343 uart0 tx 20
2475 uart0 tx 55
2495 uart0 tx 50
2515 uart0 tx 0d
2535 uart0 tx 0a
2883 uart0 tx 45
2903 uart0 tx 52
2923 uart0 tx 52
2943 uart0 tx 20
2963 uart0 tx 73
2983 uart0 tx 69
3003 uart0 tx 7a
3023 uart0 tx 65
3043 uart0 tx 0d
3063 uart0 tx 0a
3083 uart0 tx 3e
3103 uart0 tx 20
3235 uart0 tx 45
3255 uart0 tx 52
3275 uart0 tx 52
3295 uart0 tx 20
3315 uart0 tx 6e
3335 uart0 tx 6f
3355 uart0 tx 6e
3375 uart0 tx 65
3395 uart0 tx 0d
3415 uart0 tx 0a
3435 uart0 tx 3e
3455 uart0 tx 20
boot monitor
hart 0 monitor pc 00000000 retired 0
mem 00000000 930050006f0000010000000000000000
end
";

/// The image under `--boot direct`, bound 10.
pub const DIRECT_RUN: &str = "cycles 10
boot direct
hart 0 run pc 00000004 retired 3
x1 00000005
mem 00000000 930050006f0000000000000000000000
end
";
